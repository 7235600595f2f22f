//! Pending calls.
ghost use Rattle.std.specs.Prelude.{◌≡◌, None, IfOk, OnOk};
ghost use Rattle.node_rules.specs.Data.{Stmt};
ghost use Rattle.run_rules.specs.Calls.{is_call_at, second_of, change_call};

use dtx_values::Duplicate;
use sql_statement::Stmt;
use std::alloc::{AllocError, Global};
use std::marker::Model;
use std::mem;

/// A client's call that is pending.
#[derive(Drop)]
pub struct Call {
    /// The number of its command, from 1.
    pub command: u32,
    /// The node of its session, from 1.
    pub node: u8,
    /// Its session, from 1.
    pub session: u32,
    /// The statement of its next turn, or nothing where the text is outside the grammar.
    pub statement: Option<Stmt>,
    /// The statement that comes next, where this is the COMMIT before a CREATE.
    pub follows: Option<Stmt>,
}

impl Model for Call {
    ghost use Rattle.run_rules.specs.RunReport.{Call as CallByRules};

    ghost Value = { CallByRules };

    ghost view = { λ c. record { command = c.command; node = c.node; session = c.session; statement = c.statement; follows = c.follows } };
}

impl Duplicate for Call {
    fn copy(&self, alloc: Global) -> Result<Call, AllocError> {
        let statement = self.statement.copy(alloc)?;
        match self.follows.copy(alloc) {
            Err(error) => {
                drop(statement);
                Err(error)
            }
            Ok(follows) => Ok(Call {
                command: self.command,
                node: self.node,
                session: self.session,
                statement,
                follows,
            }),
        }
    }
}

impl Call {
    /// Whether it is of this session.
    pub fn is_at(&self, node: u8, session: u32) -> bool
        ensures { result ≡ is_call_at node session self.now }
    {
        self.node == node && self.session == session
    }

    /// The call of this statement, which follows it. Fails where memory runs out.
    pub fn second(&self, alloc: Global, statement: &Stmt) -> Result<Call, AllocError>
        ensures { IfOk result (λ call. call ≡ second_of self.now statement.now) }
    {
        let statement = statement.copy(alloc)?;
        Ok(Call {
            command: self.command,
            node: self.node,
            session: self.session,
            statement: Some(statement),
            follows: None,
        })
    }

    /// Becomes this call, where both are of one command. Fails where memory runs out.
    pub fn change(&mut self, alloc: Global, new: &Call) -> Result<(), AllocError>
        ensures { OnOk result (self.new ≡ change_call new.now self.old) }
    {
        if self.command == new.command {
            let changed = new.copy(alloc)?;
            drop(mem::replace(self, changed));
        }
        Ok(())
    }
}
