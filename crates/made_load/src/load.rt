//! The generated load: batches that a seed and their own numbers fix, handed out round by round.

ghost use Rattle.std.specs.Prelude.{◌≡◌, ◌≤◌, [], ◌∷◌, IfOk, IfSome, IfNone};
ghost use Rattle.made_load.specs.Load.{load_number, load_key, load_rounds, load_script_of};
ghost use Rattle.session_replies.specs.Legal.{lines_of_session};

use crate::digits::put_digits;
use crate::every_nth::EveryNth;
use crate::load_lines::LoadLines;
use session_replies::{Round, Rounds, Script, Stalls};
use std::alloc::Global;
use std::marker::Model;
use wal_base::{Blob, NoMemory};

/// By how much the number of a batch grows with the seed.
pub const LOAD_SEED_STEP: u64 = 0x5851_F42D_4C95_7F2D;

/// By how much the number of a batch grows from batch to batch.
pub const LOAD_BATCH_STEP: u64 = 0x1405_7B7E_F767_814F;

/// How many keys the batches set in turn.
pub const LOAD_KEYS: u32 = 1_000;

/// How many batches a round has, but for the last one.
pub const LOAD_ROUND: u32 = 1_000;

/// How many sessions commit the batches in turn.
pub const LOAD_SESSIONS: u32 = 4;

/// How many bytes a key has.
pub(crate) const KEY_LEN: usize = 5;

/// The number whose digits a batch sets.
pub fn load_number(seed: u64, index: u32) -> u64
    ensures { result ≡ load_number seed index }
{
    let step = u64::from(index).wrapping_mul(LOAD_BATCH_STEP);
    seed.wrapping_mul(LOAD_SEED_STEP).wrapping_add(step)
}

/// The bytes of the key that a batch sets.
pub(crate) fn key_bytes(index: u32) -> [u8; KEY_LEN]
    ensures { result ≡ load_key index }
{
    let mut key = *b"k0000";
    put_digits(&mut key[1..], 10, u64::from(index % LOAD_KEYS));
    key
}

/// The key that a batch sets. The keys come in turn, so this is also the key of a number below 1,000.
pub fn load_key(alloc: Global, index: u32) -> Result<Blob, NoMemory>
    ensures { IfOk result (λ key. key ≡ load_key index) }
{
    Blob::copy_of(alloc, &key_bytes(index))
}

/// A generated load, of which rounds are still to be handed out. Contracts see those that are left.
#[derive(Debug, Drop)]
pub struct Load {
    seed: u64,
    batches: u32,
    /// How many rounds were handed out.
    given: u32,
}

impl Model for Load {
    ghost use Rattle.std.specs.Prelude.{◌≤◌, List, drop};
    ghost use Rattle.std.specs.Int.{div_ceil};
    ghost use Rattle.session_replies.specs.declared.script.Round.{Round};
    ghost use Rattle.made_load.specs.declared.load.TheConstants.{LOAD_ROUND};
    ghost use Rattle.made_load.specs.Load.{load_rounds};

    ghost Value = { List Round };

    ghost view = { λ a. drop a.given (load_rounds a.seed a.batches) };

    ghost invariant = { λ a. a.given ≤ div_ceil a.batches LOAD_ROUND };
}

impl Load {
    /// A load of so many batches. It takes no memory.
    pub fn new(seed: u64, batches: u32) -> Load
        ensures { result ≡ load_rounds seed batches }
    {
        Load {
            seed,
            batches,
            given: 0,
        }
    }

    /// Hands out the next round. `None` exactly where none is left. It takes no memory.
    pub fn next_round(&mut self) -> Option<LoadRound>
        ensures some { IfSome result (λ round. self.old ≡ round ∷ self.new) }
        ensures none { IfNone result ((self.old ≡ []) × (self.new ≡ [])) }
    {
        if self.given >= self.batches.div_ceil(LOAD_ROUND) {
            return None;
        }
        let from = LOAD_ROUND * self.given;
        self.given += 1;
        Some(LoadRound {
            seed: self.seed,
            from,
            count: LOAD_ROUND.min(self.batches - from),
        })
    }
}

/// A round of a load, whose lines are still to be made. Contracts see the round.
#[derive(Debug, Drop)]
pub struct LoadRound {
    seed: u64,
    /// The number of its first batch.
    from: u32,
    /// How many batches it has.
    count: u32,
}

impl Model for LoadRound {
    ghost use Rattle.std.specs.Prelude.{◌≡◌, ◌<◌, ◌+◌, ◌%◌, ◌^◌, []};
    ghost use Rattle.session_replies.specs.declared.script.Round.{Round};
    ghost use Rattle.made_load.specs.Load.{load_lines};

    ghost Value = { Round };

    ghost view = { λ a. record { stalls = []; lines = load_lines a.seed a.from a.count } };

    ghost invariant = { λ a. (a.from + a.count < 2 ^ 32) × (a.from % 8 ≡ 0) };
}

impl LoadRound {
    /// The lines of one session. It takes no memory.
    pub fn lines_of(&self, session: usize) -> LoadLines
        ensures { result ≡ lines_of_session session self.now.lines }
    {
        let batches = EveryNth::of_session(self.seed, self.from, self.count, session);
        LoadLines::of(batches)
    }

    /// Makes the whole round.
    pub fn make(&self, alloc: Global) -> Result<Round, NoMemory>
        ensures { IfOk result (λ round. round ≡ self.now) }
    {
        let all = LoadLines::of(EveryNth::each(self.seed, self.from, self.count));
        Ok(Round {
            stalls: Stalls::new(alloc),
            lines: all.make(alloc)?,
        })
    }
}

/// The whole script of a load.
pub fn load_script(alloc: Global, seed: u64, batches: u32) -> Result<Script, NoMemory>
    requires { 1 ≤ batches }
    ensures { IfOk result (λ script. script ≡ load_script_of seed batches) }
{
    let mut rounds = Rounds::with_capacity(alloc, batches.div_ceil(LOAD_ROUND) as usize)?;
    let mut load = Load::new(seed, batches);
    while let Some(round) = load.next_round() {
        rounds.push(round.make(alloc)?).map_err(|_| NoMemory)?;
    }
    Ok(Script {
        rounds,
        halted: false,
        sessions: batches.min(LOAD_SESSIONS),
    })
}
