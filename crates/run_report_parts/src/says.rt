//! What the run says in a node's place.
ghost use Rattle.std.specs.Prelude.{◌≡◌, ◌&&◌, ◌++◌, ◌∷◌, [], List, if◌then◌else◌, codes, IfOk};
ghost use Rattle.dtx_values.specs.declared.answer.Notice.TheVariants as notices;
ghost use Rattle.book.specs.declared.line.Said.TheVariants as saids;
ghost use Rattle.tran_ids.specs.Numbers.{decimal};
ghost use Rattle.sql_check.specs.Refusals.{ora, dtx};
ghost use Rattle.sql_check.specs.Words.{one};
ghost use Rattle.run_rules.specs.Lines.{refuses_with, spent};
ghost use Rattle.run_report_parts.specs.Lines.{down_said, stop_said};

use book::Said;
use dtx_values::{Bytes, DELIVERY_LIMIT, Listing, Notice, Refusal};
use std::alloc::{AllocError, Global};
use tran_ids::put_decimal;

/// The code of DTX-01, a node is stopped.
const STOPPED: u16 = 60_001;

/// The code of DTX-05, messages remain after the most deliveries of a command.
const MESSAGES_REMAIN: u16 = 60_005;

/// The code of ORA-02059, a crash-test comment's point was reached.
const POINT_REACHED: u16 = 2059;

fn refused(alloc: Global, code: u16, text: Bytes) -> Result<Said, AllocError>
    ensures { IfOk result (λ said. said ≡ refuses_with (ora code (one text))) }
{
    Ok(Said::World(Notice::Refused(Refusal {
        code,
        args: Listing::of(vec![in alloc; text]?),
    })))
}

/// DTX-01: a node of this name is down. Fails where memory runs out.
pub fn down(alloc: Global, name: &[u8]) -> Result<Said, AllocError>
    ensures { IfOk result (λ said. said ≡ down_said name.now) }
{
    let text = Listing::of(Vec::from_slice(alloc, name)?);
    refused(alloc, STOPPED, text)
}

/// ORA-02059: the point of this number was reached. Fails where memory runs out.
pub fn point_reached(alloc: Global, number: u8) -> Result<Said, AllocError>
    ensures { IfOk result (λ said. said ≡ refuses_with (ora 2059 (one (decimal number)))) }
{
    let mut text = Vec::new(alloc);
    put_decimal(&mut text, u64::from(number))?;
    refused(alloc, POINT_REACHED, Listing::of(text))
}

/// `node X stopped`. Fails where memory runs out.
pub fn node_stopped(alloc: Global, name: &[u8]) -> Result<Said, AllocError>
    ensures { IfOk result (λ said. said ≡ stop_said name.now) }
{
    let mut text = Vec::from_slice(alloc, b"node ")?;
    text.extend_from_slice(name)?;
    text.extend_from_slice(b" stopped")?;
    let line = Listing::of(text);
    Ok(Said::World(Notice::Shown(Listing::of(vec![in alloc; line]?))))
}

/// DTX-05, where a command has made its most deliveries and messages are in flight. Fails where memory runs out.
pub fn over(alloc: Global, deliveries: u32, flying: bool) -> Result<Vec<Said>, AllocError>
    ensures { IfOk result (λ over. over.items ≡ (if spent deliveries && flying then one (refuses_with (dtx 5 [])) else [])) }
{
    if DELIVERY_LIMIT <= deliveries && flying {
        let remain = Said::World(Notice::Refused(Refusal {
            code: MESSAGES_REMAIN,
            args: Listing::new(alloc),
        }));
        Ok(vec![in alloc; remain]?)
    } else {
        Ok(Vec::new(alloc))
    }
}
