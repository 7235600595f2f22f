//! The client sessions of a node.
ghost use Rattle.std.specs.Prelude.{◌≡◌, replicate, IfOk, OnOk, OnErr};
ghost use Rattle.tran_ids.specs.Listed.{set_numbered};
ghost use Rattle.session_tree.specs.Live.{is_branch};
ghost use Rattle.node_rules.specs.Sessions.{fresh_session as fresh_session_of, session_at, with_call, with_call_of, with_root, needs_rollback, no_transaction, is_commit as is_commit_of, commit_is_pending, commit_ended, commit_answer};
ghost use Rattle.node_state.specs.Sessions.{with_advice, transaction_ended};

use dtx_values::{Advice, Answer, Listing};
use node_rules::{Ended, Finished, PendingCall, Session};
use std::alloc::{AllocError, Global};
use std::marker::Model;
use tran_ids::BranchId;

/// The client sessions of a node, which have numbers from 1 to 64. A number beyond those has a session that has done
/// nothing, and stays so.
#[derive(Drop)]
pub struct Sessions {
    sessions: Vec<Session>,
}

impl Model for Sessions {
    ghost use Rattle.std.specs.Prelude.{List};
    ghost use Rattle.node_rules.specs.declared.session.Session.{Session};

    ghost Value = { List Session };

    ghost view = { λ s. s.sessions.items };
}

impl Sessions {
    /// Sessions that have done nothing. Fails where memory runs out.
    #[tactic(auto, using(std::proofs::lemmas::List::replicate_more))]
    pub fn new(alloc: Global) -> Result<Sessions, AllocError>
        ensures { IfOk result (λ sessions. sessions ≡ replicate 64 fresh_session_of) }
    {
        let mut sessions = Vec::with_capacity(alloc, 64)?;
        for _ in 0..64usize {
            sessions.push(fresh_session())?;
        }
        Ok(Sessions { sessions })
    }

    /// The session of a number.
    pub fn at(&self, number: u32) -> Session
        ensures { result ≡ session_at self.now number }
    {
        session_of(&self.sessions, number)
    }

    /// A session's call is pending, or none is.
    pub fn set_call(&mut self, number: u32, call: PendingCall)
        ensures { self.new ≡ with_call self.old number call }
    {
        let session = self.at(number);
        self.set(number, Session { call, ..session });
    }

    /// A session has a new transaction.
    pub fn begin(&mut self, number: u32, root: &BranchId)
        ensures { self.new ≡ with_root self.old number root.now }
    {
        let session = self.at(number);
        let begun = Session {
            seq: root.seq,
            root: Some(*root),
            calls: 0,
            ..session
        };
        self.set(number, begun);
    }

    /// A call of a session's transaction is counted, where it has one. Fails where no number is left.
    pub fn count(&mut self, number: u32) -> Result<(), AllocError>
        ensures ok { OnOk result (self.new ≡ with_call_of self.old number (session_at self.old number).root) }
        ensures err { OnErr result (self.new ≡ self.old) }
    {
        let session = self.at(number);
        match session.root {
            None => Ok(()),
            Some(_) => {
                let Some(calls) = session.calls.checked_add(1) else {
                    return Err(AllocError);
                };
                self.set(number, Session { calls, ..session });
                Ok(())
            }
        }
    }

    /// From the answer of this code on, a session's transaction can only be rolled back.
    pub fn need_rollback(&mut self, number: u32, code: u16)
        ensures { self.new ≡ needs_rollback self.old number code }
    {
        let session = self.at(number);
        let refused = Session {
            code: Some(code),
            ..session
        };
        self.set(number, refused);
    }

    /// A session gives advice for branches that become in doubt, or none.
    pub fn set_advice(&mut self, number: u32, advice: Option<Advice>)
        ensures { self.new ≡ with_advice self.old number advice }
    {
        let session = self.at(number);
        self.set(number, Session { advice, ..session });
    }

    /// A session's transaction and its call have ended.
    pub fn end(&mut self, number: u32)
        ensures { self.new ≡ transaction_ended self.old number }
    {
        let session = self.at(number);
        self.set(number, ended(session));
    }

    /// Whether the COMMIT of this root is pending.
    pub fn commit_is_pending(&self, root: &BranchId) -> bool
        ensures { result ≡ commit_is_pending self.now root.now }
    {
        let session = self.at(root.session);
        is_root(&session, root) && is_commit(session.call)
    }

    /// The COMMIT of this root ends, where it is pending.
    pub fn end_commit(&mut self, root: &BranchId)
        ensures { self.new ≡ commit_ended self.old root.now }
    {
        if self.commit_is_pending(root) {
            self.end(root.session);
        }
    }

    /// The answer to the COMMIT of this root, where it is pending. Fails where memory runs out.
    pub fn commit_answer(
        &self,
        alloc: Global,
        root: &BranchId,
        answer: Answer,
    ) -> Result<Ended, AllocError>
        ensures { IfOk result (λ ended. ended ≡ commit_answer self.now root.now answer) }
    {
        if self.commit_is_pending(root) {
            let finished = Finished {
                session: root.session,
                answer,
            };
            Ok(Listing::of(vec![in alloc; finished]?))
        } else {
            drop(answer);
            Ok(Listing::new(alloc))
        }
    }

    fn set(&mut self, number: u32, session: Session)
        ensures { self.new ≡ set_numbered self.old number session }
    {
        set_session(&mut self.sessions, number, session);
    }
}

/// A session that has done nothing.
pub fn fresh_session() -> Session
    ensures { result ≡ fresh_session_of }
{
    Session {
        seq: 0,
        root: None,
        advice: None,
        calls: 0,
        code: None,
        call: PendingCall::NoCall,
    }
}

// A session whose transaction has ended.
fn ended(session: Session) -> Session
    ensures { result ≡ no_transaction session }
{
    let call = PendingCall::NoCall;
    Session {
        root: None,
        code: None,
        call,
        ..session
    }
}

fn is_root(session: &Session, root: &BranchId) -> bool
    ensures { result ≡ is_branch root.now session.now.root }
{
    match session.root {
        None => false,
        Some(other) => other.is(root),
    }
}

fn is_commit(call: PendingCall) -> bool
    ensures { result ≡ is_commit_of call }
{
    matches!(call, PendingCall::Commit)
}

fn session_of(sessions: &[Session], number: u32) -> Session
    ensures { result ≡ session_at sessions.now number }
{
    match number.checked_sub(1) {
        None => fresh_session(),
        Some(place) => match sessions.get(place as usize) {
            None => fresh_session(),
            Some(session) => *session,
        },
    }
}

fn set_session(sessions: &mut Vec<Session>, number: u32, session: Session)
    ensures { sessions.new.items ≡ set_numbered sessions.old.items number session }
{
    let Some(place) = number.checked_sub(1) else {
        return;
    };
    let place = place as usize;
    if place < sessions.len() {
        sessions[place] = session;
    }
}
