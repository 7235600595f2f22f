//! What a client is told is done has its record on the disk.
//!
//! CREATE TABLE, CREATE DATABASE LINK, CREATE SYNONYM, ALTER SYSTEM, COMMIT FORCE, ROLLBACK FORCE and the purges of
//! DBMS_TRANSACTION each write one record, which the statement and what the node keeps determine (`specs/DoneLaws.antt`). In
//! every lawful run such a call is answered as done only in a turn that writes its record, and such a record is written for
//! no other call. It stays on the disk, and what there is on a disk comes from such calls (`specs/StandLaws.antt`). In the
//! run of a script the report tells all this: a line that says that one is done comes from the turn of its call, and each
//! such record has its line (`specs/ReportedDone.antt`).
#![tactic(auto)]

ghost use Rattle.answer_done_laws.specs.DoneLaws.{DoneIsWritten};
ghost use Rattle.answer_done_laws.specs.StandLaws.{RecordsComeFromCalls};
ghost use Rattle.run_claims.specs.ReportedDone.{DoneIsReported};
ghost use Rattle.answer_done_laws.specs.TriedDone.{TheTriedDone};
ghost use Rattle.answer_done_laws.specs.TriedTold.{TheTriedTold};

/// A call of such a statement that is answered as done has its record written in the same turn, and is answered once, by
/// what that record tells.
pub fn done_is_written()
    ensures { DoneIsWritten }
{}

/// Each record of such a statement on a disk was written by a turn of that node that came to its call.
pub fn records_come_from_calls()
    ensures { RecordsComeFromCalls }
{}

/// In the run of a script each line of the report that says that such a statement is done comes from the turn that its call
/// came to, which wrote its record, and the record stays to the end of the run; each line that refuses one comes from a turn
/// that wrote nothing, or from the COMMIT before a CREATE; and each such record has its line: that the statement is done, or
/// that the node is down, where the turn was cut and the node has stopped.
pub fn done_is_reported()
    ensures { DoneIsReported }
{}

/// None of this is about nothing: in the tried run of two nodes CREATE TABLE is done and then refused, and the branch in
/// doubt at B is rolled back by force and then purged, each with its record and its answer.
pub fn the_tried_done()
    ensures { TheTriedDone }
{}

/// Nor is what the report tells: in a script of one node CREATE TABLE is told to be done, and to be refused the second time,
/// and another to be done after the COMMIT of its transaction.
pub fn the_tried_told()
    ensures { TheTriedTold }
{}
