//! A node is made.
ghost use Rattle.std.specs.Prelude.{◌≡◌, ◌≤◌, [], ◌++◌, IfOk, IfErr, MatchResult};
ghost use Rattle.block_disk.specs.Images.{AtEachMoment, IsOnly};
ghost use Rattle.redo_log.specs.Plans.{append_calls, begin_calls};
ghost use Rattle.redo_log.specs.Runs.{MetFault};
ghost use Rattle.node_rules.specs.Turn.{made};
ghost use Rattle.node_memory.specs.Parts.{kept_in};
ghost use Rattle.node_disk.specs.declared.err.MakeWhy.TheVariants as makes;
ghost use Rattle.node_disk.specs.Starts.{MayBeMade};
ghost use Rattle.node_disk.specs.OnDisk.{disk_of};
ghost use Rattle.node_disk.specs.Calls.{IsNewNode, MakesNone};

use crate::Node;
use crate::err::{MakeErr, MakeWhy, create_why};
use crate::starting::{begin, started};
use crate::writing::stands_still;
use block_disk::Disk;
use node_memory::Memory;
use node_ready_laws::starts_are_ready;
use node_undo_laws::starts_have_undo;
use record_log::RecordLog;
use redo_record::Place;
use std::alloc::{AllocError, Global};

// What a node keeps at its first start. Fails where memory runs out.
fn first(alloc: Global, place: Place) -> Result<Memory, AllocError>
    requires { place.undo ≤ 1024 }
    ensures kept { IfOk result (λ memory. kept_in memory ≡ made) }
    ensures boot { IfOk result (λ memory. memory.boot ≡ 1) }
    ensures place { IfOk result (λ memory. memory.place ≡ place) }
{
    let memory = started(alloc, place, &[])?;
    Ok(memory)
}

impl<D: Disk> Node<D> {
    /// Makes a node of this place on an empty disk: its log has the record of its first start. Each error gives the disk back:
    /// `Fault` where the disk failed, and `NoMemory` where memory ran out or the disk had no room, and then no record was written.
    pub fn make(alloc: Global, disk: D, place: Place) -> Result<Node<D>, MakeErr<D>>
        requires empty { D.content disk ≡ [] }
        requires undo { place.undo ≤ 1024 }
        ensures made { IfOk result (λ node. IsNewNode D.Disk place disk node) }

        // A crash at any moment leaves a disk with the record of the first start, or one with none.
        ensures any_moment { IsOnly [] (D.images disk) → MatchResult result
            (λ node. AtEachMoment D.moment D.images_since disk (disk_of node) MayBeMade)
            (λ err. AtEachMoment D.moment D.images_since disk err.disk MayBeMade) }

        ensures failed { IfErr result (λ err. err.why ≡ makes.Fault → MetFault D.Disk (begin_calls ++ append_calls) disk err.disk) }
        ensures unwritten { IfErr result (λ err. err.why ≡ makes.NoMemory → MakesNone D.Disk disk err.disk) }
    {
        starts_are_ready();
        starts_have_undo();
        match first(alloc, place) {
            Ok(memory) => match RecordLog::create(alloc, disk) {
                Ok(log) => match begin(alloc, memory, log) {
                    Ok(node) => Ok(node),
                    Err(err) => Err(err),
                },
                Err(redo_log::MakeErr { disk, why }) => {
                    drop(memory);
                    Err(MakeErr {
                        disk,
                        why: create_why(why),
                    })
                }
            },
            Err(AllocError) => {
                stands_still(&disk);
                Err(MakeErr {
                    disk,
                    why: MakeWhy::NoMemory,
                })
            }
        }
    }
}
