//! Branches in doubt, and nodes that are down: stretches of their lanes.
ghost use Rattle.std.specs.Prelude.{◌≡◌, ◌++◌, map, OnOk};
ghost use Rattle.chart_marks.specs.Marks.{settled, doubts_written, doubts_if, doubts_after, restarted, outages_after};

use crate::mark::{Doubt, Outage};
use crate::walk::Marked;
use book::Happening;
use redo_record::RedoRecord;
use std::alloc::AllocError;
use tran_ids::BranchId;

fn settle(doubt: &mut Doubt, me: &BranchId, row: u32)
    ensures { doubt.new ≡ settled me.now row doubt.old }
{
    if doubt.branch.is(me) && doubt.till.is_none() {
        doubt.till = Some(row);
    }
}

fn settle_all(doubts: &mut Vec<Doubt>, me: &BranchId, row: u32)
    ensures { doubts.new.items ≡ map (settled me.now row) doubts.old.items }
{
    for doubt in doubts.iter_mut() {
        settle(doubt, me, row);
    }
}

fn write(doubts: &mut Vec<Doubt>, row: u32, item: &RedoRecord) -> Result<(), AllocError>
    ensures { OnOk result (doubts.new.items ≡ doubts_written doubts.old.items row item.now) }
{
    match item {
        RedoRecord::Sealed(sealed) => doubts.push(Doubt {
            branch: sealed.me,
            from: row,
            till: None,
        })?,
        RedoRecord::Ended {
            me,
            decision: _decision,
        } => settle_all(doubts, me, row),
        RedoRecord::Forced {
            me,
            decision: _decision,
            given: _given,
        } => settle_all(doubts, me, row),
        _ => {}
    }
    Ok(())
}

fn write_if(doubts: &mut Vec<Doubt>, row: u32, wrote: &Option<RedoRecord>) -> Result<(), AllocError>
    ensures { OnOk result (doubts.new.items ≡ doubts_if doubts.old.items row wrote.now) }
{
    match wrote {
        None => Ok(()),
        Some(item) => write(doubts, row, item),
    }
}

impl Marked for Doubt {
    ghost after = { doubts_after };

    fn add(doubts: &mut Vec<Doubt>, row: u32, happening: &Happening) -> Result<(), AllocError> {
        match happening {
            Happening::Turn(turn) => write_if(doubts, row, &turn.wrote),
            _ => Ok(()),
        }
    }
}

fn restart(outage: &mut Outage, node: u8, row: u32)
    ensures { outage.new ≡ restarted node row outage.old }
{
    if outage.node == node && outage.till.is_none() {
        outage.till = Some(row);
    }
}

fn restart_all(outages: &mut Vec<Outage>, node: u8, row: u32)
    ensures { outages.new.items ≡ map (restarted node row) outages.old.items }
{
    for outage in outages.iter_mut() {
        restart(outage, node, row);
    }
}

impl Marked for Outage {
    ghost after = { outages_after };

    fn add(outages: &mut Vec<Outage>, row: u32, happening: &Happening) -> Result<(), AllocError> {
        match happening {
            Happening::Stopped { node } => outages.push(Outage {
                node: *node,
                from: row,
                till: None,
            })?,
            Happening::Started { node, boot: _boot } => restart_all(outages, *node, row),
            _ => {}
        }
        Ok(())
    }
}
