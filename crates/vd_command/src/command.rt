//! The commands, and the words that spell them.

use crate::arguments;

/// What is asked of the program. Sizes, lengths and places are counted in sectors.
#[derive(Clone, Copy, PartialEq, Eq, Drop)]
pub enum Command {
    /// Make an image of version 2.
    Make {
        size: u64,
        block: u32,
        chunk: u32,
        storage: u32,
        slots: u32,
    },
    /// Show 1 to 2,048 sectors of the guest's disk.
    Show {
        first: u64,
        count: u64,
    },
    /// Run a trace of 1 to 32 guests, with up to 8 workers, which rest when their last copies were slower than `limit`
    /// sectors in 1,000 ticks; 0 is no limit.
    Run {
        guests: u32,
        workers: u32,
        copying: bool,
        limit: u32,
    },
    /// Lower the number of tracked sectors.
    Retrack {
        new: u64,
    },
    /// Rewrite an image of version 1 as one of version 2.
    Upgrade,
    /// Print a generated trace.
    Trace {
        number: u64,
        guests: u32,
        requests: u32,
        size: u64,
    },
    /// Run generated requests in memory, and stop the store after so many events, 0 for never.
    Drill {
        number: u64,
        guests: u32,
        requests: u32,
        stop: u32,
    },
}

impl Command {
    ghost use Rattle.std.specs.Prelude.{◌≡◌, ◌↔◌, Some, map, string_bytes};
    ghost use Rattle.vd_command.specs.declared.command.Command.{Command as AnyCommand};
    ghost use Rattle.vd_command.specs.Words.{Spells};
    ghost use Rattle.vd_command.specs.Reading.{command_of};

    /// The command that these words spell, each word by its bytes, if they spell one. The words of each command, with the
    /// rules of its numbers, are listed in specs/Words.antt.
    pub fn parse(words: &[String]) -> Option<Command>
        ensures exact { (command : AnyCommand) → (result ≡ Some command) ↔ Spells (map string_bytes words.now) command }
        ensures value { result ≡ command_of (map string_bytes words.now) }
    {
        let (name, arguments) = words.split_first()?;
        arguments::read(name.as_str(), arguments)
    }
}
