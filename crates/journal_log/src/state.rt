// The log in memory: four positions, the updates from start up to last, the home numbers of block 0, and the rounds that run.
ghost use Rattle.std.specs.Prelude.{◌+◌, ◌^◌, ◌≤◌};
ghost use Rattle.journal_log.specs.Rounds.{next_in, target_in};

use crate::ring::Ring;
use card::SLOTS;
use model::Round;

#[derive(Drop)]
pub struct Log {
    pub(crate) start: u64,
    pub(crate) end: u64,
    pub(crate) frozen: u64,
    pub(crate) last: u64,
    pub(crate) ring: Ring,
    pub(crate) homes: [u32; SLOTS],
    pub(crate) logging: Option<Round>,
    pub(crate) installing: Option<Round>,
    ghost order: { (start ≤ end) × (end ≤ frozen) × (frozen ≤ last) },
    ghost room: { last ≤ start + 62 },
    ghost top: { last ≤ 2 ^ 63 },
    ghost logged: { (end ≤ next_in logging end) × (next_in logging end ≤ target_in logging end) × (target_in logging end ≤ frozen) },
    ghost installed: { (start ≤ next_in installing start) × (next_in installing start ≤ target_in installing start) × (target_in installing start ≤ end) },
}
