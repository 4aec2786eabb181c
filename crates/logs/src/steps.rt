// What a step adds to the log of a register.
ghost use Rattle.std.specs.Prelude.{◌≡◌};
ghost use Rattle.logs.specs.Entries.{update_entry, doing_entry, body_entry, command_entry, step_entry};
ghost use Rattle.runfile.specs.RunFile.{placement_in, code_in, argument_in};
ghost use Rattle.store.specs.SideBySide.{advanced};

use crate::Entry;
use commands::{Command, decode};
use names::{Body, Card, Message, Register, Task};
use tables::Doing;
use tables::doings::load;

// A run file, and the register that is logged.
#[derive(Clone, Copy)]
pub(crate) struct Log<'a> {
    pub file: &'a [u8],
    pub register: Register,
}

impl<'a> Log<'a> {
    // A card applies an update of a task: it counts if it is of this register, by function 5, and on the register's primary.
    #[tactic(auto, unfolding(crate::specs::Entries::update_entry))]
    fn of_update(
        &self,
        card: Card,
        task: Task,
        updated: Register,
        function: u32,
        operand: u32,
    ) -> Option<Entry>
        ensures { result ≡ update_entry (placement_in self.now.file.now) self.now.register.0 card.0 task.0 updated.0 function operand }
    {
        if updated != self.register
            || function != 5
            || card != runfile::primary(self.file, self.register)
        {
            return None;
        }
        let card = runfile::home(self.file, task);
        Some(Entry { card, operand })
    }

    // A task performs what it asks for, on its home.
    #[tactic(auto, unfolding(crate::specs::Entries::doing_entry))]
    fn of_doing(&self, task: Task, doing: Doing) -> Option<Entry>
        ensures { result ≡ doing_entry (placement_in self.now.file.now) self.now.register.0 task.0 doing }
    {
        match doing {
            Doing::AskingUpdate(x, f, w) => {
                self.of_update(runfile::home(self.file, task), task, x, f, w)
            }
            _ => None,
        }
    }

    // A card delivers a message of a task.
    #[tactic(auto, unfolding(crate::specs::Entries::body_entry))]
    fn of_message(&self, card: Card, message: Message) -> Option<Entry>
        ensures { result ≡ body_entry (placement_in self.now.file.now) self.now.register.0 card.0 message.task.0 message.register.0 message.body }
    {
        match message.body {
            Body::UpdateDo(f, w) => self.of_update(card, message.task, message.register, f, w),
            _ => None,
        }
    }

    // A decoded step, where it is taken. Only steps 3 and 9 apply updates.
    #[tactic(auto, unfolding(crate::specs::Entries::command_entry, crate::specs::Entries::received_entry))]
    fn of_command(
        &self,
        registers: &[u32; 593],
        channel: &[u32; channel::WORDS],
        command: Command,
    ) -> Option<Entry>
        ensures { result ≡ command_entry (placement_in self.now.file.now) self.now.register.0 registers.now channel.now command }
    {
        match command {
            Command::Perform(t) => self.of_doing(t, load(registers, t)),
            Command::Deliver(i) => self.of_message(i, channel::head(channel, i).ok()?),
            _ => None,
        }
    }

    // Step k of the file: what it adds. The memories are looked at before it.
    #[tactic(auto, unfolding(crate::specs::Entries::step_entry))]
    pub(crate) fn turn(
        &self,
        registers: &mut [u32; 593],
        channel: &mut [u32; channel::WORDS],
        k: u32,
    ) -> Option<Entry>
        ensures registers { registers.new ≡ (advanced registers.old channel.old (code_in self.now.file.now k) (argument_in self.now.file.now k)).registers }
        ensures channel { channel.new ≡ (advanced registers.old channel.old (code_in self.now.file.now k) (argument_in self.now.file.now k)).channel }
        ensures entry { result ≡ step_entry (placement_in self.now.file.now) self.now.register.0 registers.old channel.old (code_in self.now.file.now k) (argument_in self.now.file.now k) }
    {
        let code = runfile::code(self.file, k);
        let argument = runfile::argument(self.file, k);
        let command = decode(channel, code, argument);
        let added = match command {
            Ok(c) => self.of_command(registers, channel, c),
            Err(_) => None,
        };
        let said = store::advance(registers, channel, code, argument);
        if names::is_taken(said.result) {
            added
        } else {
            None
        }
    }
}
