ghost use Rattle.design_model.specs.Commands.{is_command_in_range, command_with_point, command_accepts_point};
ghost use Rattle.design_model.specs.Labels.{IsLabel};
ghost use Rattle.design_model.specs.declared.design.ModelFault.TheVariants as fault;
ghost use Rattle.std.specs.List.{list_all};
ghost use Rattle.std.specs.Prelude.{◌≡◌, ◌<◌, ◌≤◌, length, slice_get, slice_set, IfSome, IsSomeAnd, IsTrue, OnErr, OnOk};

use crate::command::Command;
use crate::memory::Memory;
use crate::point::Point;
use arrayvec::ArrayVec;
use std::alloc::Global;
use std::marker::Model;

/// The maximum length of a label in bytes.
pub const MAX_LABEL: usize = 16;

/// The maximum number of thread numbers in a design.
pub const MAX_THREADS: usize = 255;

/// The maximum number of commands in a design.
pub const MAX_COMMANDS: usize = 1_000_000;

/// Why a design rejected a command.
#[derive(Clone, Copy, Debug, PartialEq)]
pub enum ModelFault {
    /// The point is out of its range.
    Range,
    /// The design has `MAX_COMMANDS` commands.
    TooMany,
    /// Out of memory.
    Memory,
}

/// An embroidery design: a label, the thread numbers of the first blocks, and the commands.
///
/// A design has one colour block more than it has `Stop` commands. Blocks count from 0.
#[derive(Drop)]
pub struct Design {
    label: ArrayVec<u8, MAX_LABEL>,
    threads: ArrayVec<u8, MAX_THREADS>,
    commands: Vec<Command>,
}

impl Model for Design {
    ghost use Rattle.design_model.specs.Designs.{DesignValue, KeepsLimits};

    ghost Value = { DesignValue };

    ghost view = { λ d. record {
      label = d.label.items;
      threads = d.threads.items;
      commands = d.commands.items;
    } };

    ghost invariant = { λ d. KeepsLimits (record {
      label = d.label.items;
      threads = d.threads.items;
      commands = d.commands.items;
    }) };
}

impl Design {
    ghost use Rattle.design_model.specs.Designs.{KeepsLimits, Pushes, empty_design, with_command, with_command_at, with_label, with_thread, with_thread_at, without_commands, thread_of};

    /// Returns a design without label, threads and commands.
    pub fn new(alloc: Global) -> Self
        ensures { result ≡ empty_design }
    {
        Design {
            label: ArrayVec::new(),
            threads: ArrayVec::new(),
            commands: Vec::new(alloc),
        }
    }

    /// Returns a design with the label and the threads of this one, and no command.
    pub fn without_commands(&self, alloc: Global) -> Self
        ensures { result ≡ without_commands self.now }
    {
        let mut design = Design::new(alloc);
        design.set_label(self.label());
        design
            .threads
            .try_extend_from_slice(self.threads())
            .unwrap();
        design
    }

    /// Sets the label.
    pub fn set_label(&mut self, label: &[u8])
        requires { IsLabel label.now }
        ensures { self.new ≡ with_label self.old label.now }
    {
        self.label.clear();
        self.label.try_extend_from_slice(label).unwrap();
    }

    /// Returns the label, which is empty if none was set.
    pub fn label(&self) -> &[u8]
        ensures value { result.now ≡ self.now.label }
        ensures limits { IsLabel result.now }
    {
        self.label.as_slice()
    }

    /// Adds the thread number of the first block that has none.
    pub fn push_thread(&mut self, thread: u8)
        requires { length self.old.threads < MAX_THREADS }
        ensures { self.new ≡ with_thread self.old thread }
    {
        self.threads.push(thread);
    }

    /// Replaces a stored thread number.
    pub fn put_thread(&mut self, place: usize, thread: u8)
        requires { place < length self.old.threads }
        ensures { self.new ≡ with_thread_at self.old place thread }
    {
        self.threads.as_mut_slice()[place] = thread;
    }

    /// Returns the stored thread numbers, those of the first blocks.
    pub fn threads(&self) -> &[u8]
        ensures value { result.now ≡ self.now.threads }
        ensures limits { length result.now ≤ MAX_THREADS }
    {
        self.threads.as_slice()
    }

    /// Returns the thread of a block: the stored number, or one from 1 to 64 by the index of the block.
    pub fn thread(&self, block: u32) -> u8
        ensures { result ≡ thread_of self.now block }
    {
        match self.threads.as_slice().get(block as usize) {
            Some(kept) => *kept,
            None => (1 + block % 64) as u8,
        }
    }

    /// Adds a command at the end. `Range` is tested first. An error leaves the design unchanged.
    pub fn push(&mut self, command: Command) -> Result<(), ModelFault>
        ensures { Pushes command self.old result self.new }
    {
        if !command.is_in_range() {
            return Err(ModelFault::Range);
        }
        if self.commands.len() == MAX_COMMANDS {
            return Err(ModelFault::TooMany);
        }
        self.add(command)?;
        Ok(())
    }

    /// Adds a command in its range at the end of a design that has room for it. An error leaves the design
    /// unchanged.
    #[inline(always)]
    pub fn add(&mut self, command: Command) -> Result<(), Memory>
        requires in_range { IsTrue (is_command_in_range command) }
        requires room { length self.old.commands < MAX_COMMANDS }
        ensures added { OnOk result (self.new ≡ with_command self.old command) }
        ensures kept { OnErr result (self.new ≡ self.old) }
    {
        self.commands.push(command)?;
        Ok(())
    }

    /// Returns the commands in order.
    pub fn commands(&self) -> &[Command]
        ensures value { result.now ≡ self.now.commands }
        ensures limits { KeepsLimits self.now }
    {
        self.commands.as_slice()
    }

    /// States that a design keeps its limits. A function whose proof needs the limits calls it.
    pub fn keeps_limits(&self)
        ensures { KeepsLimits self.now }
    {
        self.commands();
    }

    /// Moves the stitch or the jump at `index` to a point in its range.
    pub fn put_point(&mut self, index: usize, point: Point)
        requires { IsSomeAnd (slice_get self.old.commands index)
            (λ command. IsTrue (command_accepts_point command point)) }
        ensures { IfSome (slice_get self.old.commands index)
            (λ command. self.new ≡ with_command_at self.old index (command_with_point command point)) }
    {
        move_one(&mut self.commands, index, point);
    }
}

#[tactic(auto, using(crate::proofs::CommandLemmas::moved_in_place, crate::proofs::CommandLemmas::moved_in_range))]
fn move_one(commands: &mut Vec<Command>, index: usize, point: Point)
    requires { IsSomeAnd (slice_get commands.old.items index)
        (λ command. IsTrue (command_accepts_point command point)) }
    ensures moved { IfSome (slice_get commands.old.items index)
        (λ command. commands.new.items
        ≡ slice_set commands.old.items index (command_with_point command point)) }
    ensures length { length commands.new.items ≡ length commands.old.items }
    ensures in_range { IsTrue (list_all is_command_in_range commands.old.items)
        → IsTrue (list_all is_command_in_range commands.new.items) }
{
    let command = commands[index];
    commands[index] = command.moved_to(point);
}

impl From<Memory> for ModelFault {
    ghost from_gives = { λ _ e. e ≡ fault.Memory };

    fn from(_error: Memory) -> ModelFault {
        ModelFault::Memory
    }
}
