//! A request, read from the content part of a message.

ghost use Rattle.std.specs.Prelude.{◌≡◌, ◌≢◌, codes, string_bytes, Some, IfOk, IfErr, option_map, IsUtf8};
ghost use Rattle.serde_json.specs.Data.{Data};
ghost use Rattle.serde_json.specs.Read.{read};
ghost use Rattle.serde_json.specs.View.{view};
ghost use Rattle.ga_dap_protocol.specs.Messages.{member_as_text, member_as_number, IsRequest, IsNoRequest, HoldsNoRequest};

use serde_json::Value;
use std::alloc::{AllocError, Global};
use thiserror::Error;

/// A request of the client.
#[derive(Drop)]
pub struct ClientRequest {
    /// The number of the request, by which it is answered.
    pub seq: u64,
    /// The requested command.
    pub command: String,
    /// The arguments of the request; null where it has none.
    pub arguments: Value,
}

/// Why a content part is no request.
#[derive(Clone, Copy, PartialEq, Eq, Debug, Error)]
pub enum RequestError {
    /// Out of memory.
    #[error("out of memory")]
    Memory,
    /// The content part is no JSON, or nests deeper than 127.
    #[error("a message is no JSON")]
    Json,
    /// The type of the value is not `request`.
    #[error("a message is no request")]
    WrongType,
    /// The request has no number.
    #[error("a request has no `seq`")]
    Seq,
    /// The request has no command.
    #[error("a request has no `command`")]
    MissingCommand,
}

impl From<AllocError> for RequestError {
    ghost use Rattle.ga_dap_protocol.specs.declared.request.RequestError.TheVariants.{Memory};
    ghost use Rattle.std.specs.Prelude.{◌≡◌};

    ghost from_gives = { λ e r. r ≡ Memory };

    fn from(_: AllocError) -> Self {
        RequestError::Memory
    }
}

/// The request that a content part is. Takes memory for its values, 32 bytes for each, some 20 MB at most.
///
/// # Errors
/// Why it is none.
pub fn read_request(alloc: Global, content: &[u8]) -> Result<ClientRequest, RequestError>
    ensures ok { IfOk result (λ r. (d : Data) × IsUtf8 content.now × (read content.now ≡ Some d)
        × IsRequest d r.seq (string_bytes r.command) (view r.arguments)) }
    ensures err { IfErr result (λ why. HoldsNoRequest content.now why) }
{
    match Value::from_slice(alloc, content) {
        Ok(value) => request_of(alloc, &value),
        Err(why) => {
            if why.is_memory() {
                Err(RequestError::Memory)
            } else {
                Err(RequestError::Json)
            }
        }
    }
}

/// The request that a value is.
fn request_of(alloc: Global, value: &Value) -> Result<ClientRequest, RequestError>
    ensures ok { IfOk result (λ r. IsRequest (view value.now) r.seq (string_bytes r.command) (view r.arguments)) }
    ensures err { IfErr result (λ why. IsNoRequest (view value.now) why) }
{
    let Some(kind) = member_as_text(value, "type") else {
        return Err(RequestError::WrongType);
    };
    if kind != "request" {
        return Err(RequestError::WrongType);
    }
    let Some(seq) = member_as_number(value, "seq") else {
        return Err(RequestError::Seq);
    };
    let Some(command) = member_as_text(value, "command") else {
        return Err(RequestError::MissingCommand);
    };
    let command = String::from_str(alloc, command)?;
    let arguments = match value.get("arguments") {
        Some(given) => given.clone()?,
        None => Value::Null,
    };
    Ok(ClientRequest {
        seq,
        command,
        arguments,
    })
}

/// The text of a member. Takes no memory.
pub fn member_as_text<'v>(value: &'v Value, name: &str) -> Option<&'v str>
    ensures { option_map (λ t. t.now) result ≡ member_as_text name.now (view value.now) }
{
    value.get(name).and_then(Value::as_str)
}

/// The number of a member, where it is a whole number from 0 on. Takes no memory.
pub fn member_as_number(value: &Value, name: &str) -> Option<u64>
    ensures { result ≡ member_as_number name.now (view value.now) }
{
    value.get(name).and_then(Value::as_u64)
}
