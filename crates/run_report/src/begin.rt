//! A command begins.
ghost use Rattle.std.specs.Prelude.{◌≡◌, ◌&&◌, ◌∷◌, ◌++◌, [], not, find, is_some, IfOk, OnErr, OnOk};
ghost use Rattle.std.specs.Option.{option_copied};
ghost use Rattle.run_rules.specs.Commands.{call_of as call_of_command, commits_first as commits_first_of, hold_after, page_of};
ghost use Rattle.run_rules.specs.Calls.{is_call_at};
ghost use Rattle.run_report.specs.Facts.{ReportsBegin};
ghost use Rattle.run_report.specs.Known.{begun, calls_by, orders_by, told_by};

use crate::RunReport;
use book::Said;
use dtx_values::{Duplicate, Listing};
use run_report_parts::{
    Call, CommandOutput, DiskOrders, StopOrder, call_at, opens_gate, orders_at, over, set_orders,
};
use script_read::Command;
use sql_statement::Stmt;
use std::alloc::{AllocError, Global};
use std::mem;

/// What is known of the facts of a run as a command begins.
#[derive(Drop)]
pub struct BeginFacts {
    /// The number of the command before it, and 0 before the first.
    pub running: u32,
    /// Whether messages are in flight.
    pub flying: bool,
    /// What the command says at once.
    pub says: Listing<Said>,
    /// Where it is a client's call, whether its node is up.
    pub is_up: bool,
    /// Where it is a client's call, whether its session has a transaction.
    pub has_transaction: bool,
}

impl RunReport {
    /// The command of this number begins, and the lines of the one before it are told. Fails where memory runs out.
    #[tactic(auto, using(crate::proofs::KnownLemmas::begun_is))]
    pub fn begin(
        &mut self,
        alloc: Global,
        number: u32,
        command: &Command,
        facts: BeginFacts,
    ) -> Result<(), AllocError>
        ensures by_facts { OnOk result (self.new ≡ begun facts self.old number command.now) }
        ensures tells { OnOk result (ReportsBegin facts self.old number command.now self.new) }
        ensures before { OnErr result (self.new.lines ≡ self.old.lines) }
    {
        self.open(alloc, number, command, facts)
    }

    fn open(
        &mut self,
        alloc: Global,
        number: u32,
        command: &Command,
        facts: BeginFacts,
    ) -> Result<(), AllocError>
        ensures by_facts { OnOk result (self.new ≡ begun facts self.old number command.now) }
        ensures before { OnErr result (self.new.lines ≡ self.old.lines) }
    {
        let (up, has) = (facts.is_up, facts.has_transaction);
        add_call(&mut self.calls, alloc, number, command, up, has)?;
        self.turn_page(alloc, facts.running, facts.flying, facts.says)?;
        take_order(&mut self.orders, command);
        self.take_hold(command);
        self.acted = false;
        self.deliveries = 0;
        Ok(())
    }

    // The page of the command before is told, and a new one begins.
    pub(crate) fn turn_page(
        &mut self,
        alloc: Global,
        running: u32,
        flying: bool,
        says: Listing<Said>,
    ) -> Result<(), AllocError>
        ensures tells { OnOk result (self.new ≡ record self.old { page = page_of says; lines = told_by running flying self.old }) }
        ensures before { OnErr result (self.new.lines ≡ self.old.lines) }
    {
        let over = over(alloc, self.deliveries, flying)?;
        let next = CommandOutput::of(alloc, says.into_vec());
        let page = mem::replace(&mut self.page, next);
        page.tell(alloc, &mut self.lines, running, over)
    }

    fn take_hold(&mut self, command: &Command)
        ensures { self.new ≡ record self.old { hold = hold_after self.old.hold command.now } }
    {
        if let Command::Hold { on } = command {
            self.hold = *on;
        }
    }
}

// CRASH and FAULT are orders on a node's disk, in the place of an earlier one.
fn take_order(orders: &mut Vec<DiskOrders>, command: &Command)
    ensures { orders.new.items ≡ orders_by orders.old.items command.now }
{
    match command {
        Command::Crash { node, write, how } => {
            let fault = orders_at(orders, *node).fault;
            let stop = Some(StopOrder {
                write: *write,
                opens: opens_gate(how),
            });
            set_orders(orders, *node, DiskOrders { stop, fault });
        }
        Command::Fault { node, call } => {
            let stop = orders_at(orders, *node).stop;
            let fault = Some(*call);
            set_orders(orders, *node, DiskOrders { stop, fault });
        }
        _ => {}
    }
}

// Whether a call pends as its command begins.
fn begins(calls: &[Call], is_up: bool, node: u8, session: u32) -> bool
    ensures { result ≡ (is_up && not (is_some (find (is_call_at node session) calls.now))) }
{
    is_up && !call_at(calls, node, session).is_some()
}

fn add_call(
    calls: &mut Vec<Call>,
    alloc: Global,
    number: u32,
    command: &Command,
    is_up: bool,
    has_transaction: bool,
) -> Result<(), AllocError>
    ensures { OnOk result (calls.new.items ≡ calls_by is_up has_transaction calls.old.items number command.now) }
{
    match command {
        Command::At {
            node,
            session,
            statement,
        } => {
            if begins(calls, is_up, *node, *session) {
                let statement = statement.as_ref();
                let call = call_of(alloc, number, *node, *session, statement, has_transaction)?;
                calls.push(call)?;
                Ok(())
            } else {
                Ok(())
            }
        }
        _ => Ok(()),
    }
}

// CREATE commits first, where the session has a transaction.
fn commits_first(statement: &Stmt) -> bool
    ensures { result ≡ commits_first_of statement.now }
{
    matches!(
        statement,
        Stmt::CreateTable(_) | Stmt::CreateLink(_) | Stmt::CreateSynonym(_)
    )
}

// The call of a client's command, for a CREATE in a transaction its COMMIT first. Fails where memory runs out.
fn call_of(
    alloc: Global,
    command: u32,
    node: u8,
    session: u32,
    statement: Option<&Stmt>,
    has_transaction: bool,
) -> Result<Call, AllocError>
    ensures { IfOk result (λ call. call ≡ call_of_command command node session (option_copied statement.entry) has_transaction) }
{
    match statement {
        None => Ok(Call {
            command,
            node,
            session,
            statement: None,
            follows: None,
        }),
        Some(statement) => {
            let copy = statement.copy(alloc)?;
            if commits_first(statement) && has_transaction {
                Ok(Call {
                    command,
                    node,
                    session,
                    statement: Some(Stmt::Commit { comment: None }),
                    follows: Some(copy),
                })
            } else {
                Ok(Call {
                    command,
                    node,
                    session,
                    statement: Some(copy),
                    follows: None,
                })
            }
        }
    }
}
