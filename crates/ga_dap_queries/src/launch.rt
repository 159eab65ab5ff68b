//! What `launch` asks for.

ghost use Rattle.std.specs.Prelude.{◌≡◌, ◌≤◌, option_map, IfSome};
ghost use Rattle.serde_json.specs.View.{view};
ghost use Rattle.ga_scheduler.specs.Schedules.{random_schedule};
ghost use Rattle.ga_dap_queries.specs.Launching.{parse_history_limit, parse_seed, parse_schedule, stops_on_entry};

use crate::arguments::parse_boolean_member;
use ga_dap_protocol::{member_as_number, member_as_text};
use ga_scheduler::Schedule;
use serde_json::Value;

/// The limit of the history if the client names none, in events, as that of `explore`.
const USUAL_LIMIT: u32 = 20_000_000;
/// The greatest limit of the history.
const MAX_LIMIT: u64 = 100_000_000;

/// The limit of the history in events, 1 to 100000000; none if the requested one isn't in this range.
pub fn parse_history_limit(arguments: &Value) -> Option<u32>
    ensures value { result ≡ parse_history_limit (view arguments.now) }
    ensures most { IfSome result (λ limit. limit ≤ 100000000) }
{
    if arguments.get("limit").is_none() {
        return Some(USUAL_LIMIT);
    }
    let limit = member_as_number(arguments, "limit")?;
    if limit < 1 || limit > MAX_LIMIT {
        return None;
    }
    Some(limit as u32)
}

/// The requested seed, if it is valid; 0 if none is requested.
fn parse_seed(arguments: &Value) -> Option<u32>
    ensures { result ≡ parse_seed (view arguments.now) }
{
    if arguments.get("seed").is_none() {
        return Some(0);
    }
    u32::try_from(member_as_number(arguments, "seed")?).ok()
}

/// An order that is drawn, where its seed can be.
fn drawn_order(arguments: &Value) -> Option<Schedule>
    ensures { result ≡ option_map random_schedule (parse_seed (view arguments.now)) }
{
    match parse_seed(arguments) {
        Some(seed) => Some(Schedule::random_schedule(u64::from(seed))),
        None => None,
    }
}

/// The order in which the nodes are to make their events, where there is such a one.
pub fn parse_schedule(arguments: &Value) -> Option<Schedule>
    ensures { result ≡ parse_schedule (view arguments.now) }
{
    if arguments.get("order").is_none() {
        return Some(Schedule::round_robin_schedule());
    }
    let order = member_as_text(arguments, "order")?;
    if order == "rounds" {
        Some(Schedule::round_robin_schedule())
    } else if order == "greedy" {
        Some(Schedule::greedy_schedule())
    } else if order == "random" {
        drawn_order(arguments)
    } else {
        None
    }
}

/// Whether the nodes are stopped at load until the client continues.
pub fn stops_on_entry(arguments: &Value) -> bool
    ensures { result ≡ stops_on_entry (view arguments.now) }
{
    parse_boolean_member(arguments, "stopOnEntry").unwrap_or(true)
}
