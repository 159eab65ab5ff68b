//! The requests that are known, by their names.

ghost use Rattle.std.specs.Prelude.{◌≡◌, ◌≢◌, ◌<◌, IfSome, IfNone};
ghost use Rattle.ga_dap_queries.specs.declared.request_name.RequestName.{RequestName as ACommand};
ghost use Rattle.ga_dap_queries.specs.Commands.{command_name};
ghost use Rattle.ga_dap_queries.specs.inner.{request_name_at};

/// A request of the client.
#[derive(Clone, Copy, PartialEq, Eq, Debug)]
pub enum RequestName {
    Initialize,
    Launch,
    SetBreakpoints,
    SetFunctionBreakpoints,
    SetInstructionBreakpoints,
    DataBreakpointInfo,
    SetDataBreakpoints,
    SetExceptionBreakpoints,
    ConfigurationDone,
    Threads,
    StackTrace,
    Scopes,
    Variables,
    Continue,
    Next,
    StepIn,
    StepOut,
    Pause,
    StepBack,
    ReverseContinue,
    Evaluate,
    ExceptionInfo,
    Disassemble,
    Terminate,
    Disconnect,
}

/// The requests that are known, in a list.
static COMMANDS: [RequestName; 25] = [
    RequestName::Initialize,
    RequestName::Launch,
    RequestName::SetBreakpoints,
    RequestName::SetFunctionBreakpoints,
    RequestName::SetInstructionBreakpoints,
    RequestName::DataBreakpointInfo,
    RequestName::SetDataBreakpoints,
    RequestName::SetExceptionBreakpoints,
    RequestName::ConfigurationDone,
    RequestName::Threads,
    RequestName::StackTrace,
    RequestName::Scopes,
    RequestName::Variables,
    RequestName::Continue,
    RequestName::Next,
    RequestName::StepIn,
    RequestName::StepOut,
    RequestName::Pause,
    RequestName::StepBack,
    RequestName::ReverseContinue,
    RequestName::Evaluate,
    RequestName::ExceptionInfo,
    RequestName::Disassemble,
    RequestName::Terminate,
    RequestName::Disconnect,
];

fn name_of(command: RequestName) -> &'static str
    ensures { result.now ≡ command_name command }
{
    match command {
        RequestName::Initialize => "initialize",
        RequestName::Launch => "launch",
        RequestName::SetBreakpoints => "setBreakpoints",
        RequestName::SetFunctionBreakpoints => "setFunctionBreakpoints",
        RequestName::SetInstructionBreakpoints => "setInstructionBreakpoints",
        RequestName::DataBreakpointInfo => "dataBreakpointInfo",
        RequestName::SetDataBreakpoints => "setDataBreakpoints",
        RequestName::SetExceptionBreakpoints => "setExceptionBreakpoints",
        RequestName::ConfigurationDone => "configurationDone",
        RequestName::Threads => "threads",
        RequestName::StackTrace => "stackTrace",
        RequestName::Scopes => "scopes",
        RequestName::Variables => "variables",
        RequestName::Continue => "continue",
        RequestName::Next => "next",
        RequestName::StepIn => "stepIn",
        RequestName::StepOut => "stepOut",
        RequestName::Pause => "pause",
        RequestName::StepBack => "stepBack",
        RequestName::ReverseContinue => "reverseContinue",
        RequestName::Evaluate => "evaluate",
        RequestName::ExceptionInfo => "exceptionInfo",
        RequestName::Disassemble => "disassemble",
        RequestName::Terminate => "terminate",
        RequestName::Disconnect => "disconnect",
    }
}

/// The request at a place of the list.
fn request_name_at(place: usize) -> RequestName
    requires { place < 25 }
    ensures { result ≡ request_name_at place }
{
    COMMANDS[place]
}

/// The request of a name, where it is known.
pub fn parse_request_name(name: &str) -> Option<RequestName>
    ensures found { IfSome result (λ command. command_name command ≡ name.now) }
    ensures none { IfNone result ((command : ACommand) → command_name command ≢ name.now) }
{
    'commands: for place in 0..25usize {
        let command = request_name_at(place);
        if name_of(command) == name {
            return Some(command);
        }
    }
    None
}
