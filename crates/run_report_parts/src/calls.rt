//! Lists of pending calls, in order of command.
ghost use Rattle.std.specs.Prelude.{◌≡◌, not, map, filter, find, IfOk, OnOk};
ghost use Rattle.std.specs.Option.{option_copied};
ghost use Rattle.run_rules.specs.Calls.{is_call_at, change_call};
ghost use Rattle.run_report_parts.specs.Endings.{keys_of, is_running as is_running_call};

use crate::Call;
use std::alloc::{AllocError, Global};

/// The command and the session of a call.
#[derive(Clone, Copy, Debug)]
pub struct CallKey {
    /// The number of its command, from 1.
    pub command: u32,
    /// Its session, from 1.
    pub session: u32,
}

/// The pending call of a session.
pub fn call_at(calls: &[Call], node: u8, session: u32) -> Option<&Call>
    ensures { option_copied result ≡ find (is_call_at node session) calls.now }
{
    calls.iter().find(|call| call.is_at(node, session))
}

/// Whether a pending call is of the command that runs.
pub fn is_running(call: Option<&Call>, running: u32) -> bool
    ensures { result ≡ is_running_call running (option_copied call.entry) }
{
    match call {
        None => false,
        Some(call) => call.command == running,
    }
}

/// No call is pending at a session.
pub fn drop_call(calls: &mut Vec<Call>, node: u8, session: u32)
    ensures { calls.new.items ≡ filter (λ c. not (is_call_at node session c)) calls.old.items }
{
    calls.retain(|call| !call.is_at(node, session));
}

/// The calls of this one's command become this one. Fails where memory runs out.
pub fn change_calls(calls: &mut Vec<Call>, alloc: Global, new: &Call) -> Result<(), AllocError>
    ensures { OnOk result (calls.new.items ≡ map (change_call new.now) calls.old.items) }
{
    for call in calls.iter_mut() {
        call.change(alloc, new)?;
    }
    Ok(())
}

/// The calls of a node. Fails where memory runs out.
pub fn keys_at(alloc: Global, calls: &[Call], node: u8) -> Result<Vec<CallKey>, AllocError>
    ensures { IfOk result (λ keys. keys.items ≡ keys_of node calls.now) }
{
    let mut keys = Vec::new(alloc);
    for call in calls {
        if call.node == node {
            keys.push(CallKey {
                command: call.command,
                session: call.session,
            })?;
        }
    }
    Ok(keys)
}
