//! A body as a list of operators.

ghost use Rattle.std.specs.Prelude.{◌≡◌, ◌++◌, length, MatchResult, OnOk};
ghost use Rattle.walrus_bodies.specs.Listed.{HasRoom, KeepsRest, operators_of};

use std::alloc::{AllocError, Global};
use walrus_base::{LocalId, TypeId};
use walrus_code::{Args, InstrLocId, Operator};

// What is held of a function whose body is a list.
#[derive(Drop)]
pub(crate) struct Listed {
    pub(crate) args: Vec<LocalId>,
    // The operators, and in front of them room for others.
    pub(crate) operators: Vec<Operator>,
    // How many places are room.
    pub(crate) room: usize,
    pub(crate) handler_types: Vec<TypeId>,
    // The name that it was built with.
    pub(crate) name: Option<String>,
}

impl Listed {
    // The operators.
    pub(crate) fn as_slice(&self) -> &[Operator]
        ensures { result.now ≡ operators_of self.now }
    {
        let operators = self.operators.as_slice();
        let (_room, own) = operators.split_at(self.room.min(operators.len()));
        own
    }

    // Takes the room away.
    pub(crate) fn settle(&mut self)
        ensures items { self.new.operators.items ≡ operators_of self.old }
        ensures room { self.new.room ≡ 0 }
        ensures rest { KeepsRest self.old self.new }
    {
        if self.room != 0 {
            let room = self.room.min(self.operators.len());
            self.operators.rotate_left(room);
            self.operators.truncate(self.operators.len() - room);
            self.room = 0;
        }
    }

    // Makes room for so many, where there isn't as much, and then for as many as operators stand there. Refused, the operators stay.
    fn widen(&mut self, alloc: Global, count: usize) -> Result<(), AllocError>
        ensures room { OnOk result (HasRoom self.new count) }
        ensures items { operators_of self.new ≡ operators_of self.old }
        ensures rest { KeepsRest self.old self.new }
    {
        if count <= self.room && self.room <= self.operators.len() {
            return Ok(());
        }
        self.settle();
        let own = self.operators.len();
        let room = own.saturating_add(count);
        let mut wide = Vec::with_capacity(alloc, room.saturating_add(own))?;
        wide.resize_with(
            room,
            || Operator {
                op: 0,
                loc: InstrLocId::DEFAULT,
                args: Args::None,
            },
        )?;
        wide.append(&mut self.operators)?;
        self.operators = wide;
        self.room = room;
        Ok(())
    }

    // Moves these into the room.
    fn fill(&mut self, front: Vec<Operator>)
        requires room { HasRoom self.old (length front.items) }
        ensures items { operators_of self.new ≡ front.items ++ operators_of self.old }
        ensures rest { KeepsRest self.old self.new }
    {
        let mut left = front;
        'operators: while let Some(operator) = left.pop() {
            self.room -= 1;
            self.operators[self.room] = operator;
        }
    }

    // Puts operators in front. It takes as long as these are many, and now and then as long as all are. Refused, the operators stay.
    pub(crate) fn put_front(
        &mut self,
        alloc: Global,
        front: Vec<Operator>,
    ) -> Result<(), AllocError>
        ensures items { MatchResult result
            (λ _. operators_of self.new ≡ front.items ++ operators_of self.old)
            (λ _. operators_of self.new ≡ operators_of self.old) }
        ensures rest { KeepsRest self.old self.new }
    {
        self.widen(alloc, front.len())?;
        self.fill(front);
        Ok(())
    }
}
