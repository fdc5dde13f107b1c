//! The settings of a run, and the words that choose their numbers.

ghost use Rattle.std.specs.Prelude.{◌≡◌, length, IfSome};
ghost use Rattle.rs_engine.specs.Limits.{IsUpTo};
ghost use Rattle.raftreplay.specs.Settings.{number_word, setting_of, greatest, number_for, unchosen, choose, chosen_with, chosen_by, options_of};
ghost use Rattle.raftreplay.specs.Limited.{IsLimited};
ghost use Rattle.raftreplay.specs.Words.{bytes_of};

use rs_engine::Options;
use rs_field::number_of;

/// A setting of a run.
#[derive(Clone, Copy, Debug, PartialEq, Eq)]
pub enum Setting {
    /// `--raft-pollers`: how many threads poll peer machines, 1 to 16.
    RaftPollers,
    /// `--apply-pollers`: how many threads poll apply machines, 1 to 16.
    ApplyPollers,
    /// `--batch`: the most messages, and after them the most entries, of one turn of a machine, 1 to 256.
    Batch,
    /// `--chunk`: the most entries by which one message raises the index up to which a log is there, 1 to 65,536.
    Chunk,
}

impl Setting {
    /// Returns the setting that a word names.
    fn named(word: &str) -> Option<Setting>
        ensures { result ≡ setting_of word.now }
    {
        if word == "--raft-pollers" {
            Some(Setting::RaftPollers)
        } else if word == "--apply-pollers" {
            Some(Setting::ApplyPollers)
        } else if word == "--batch" {
            Some(Setting::Batch)
        } else if word == "--chunk" {
            Some(Setting::Chunk)
        } else {
            None
        }
    }

    /// Returns its greatest number.
    fn greatest(self) -> u32
        ensures { result ≡ greatest self }
    {
        match self {
            Setting::RaftPollers | Setting::ApplyPollers => 16,
            Setting::Batch => 256,
            Setting::Chunk => 65_536,
        }
    }

    /// Returns the number that a word gives it.
    fn number(self, word: &str) -> Option<u32>
        ensures number { result ≡ number_for self word.now }
        ensures limited { IfSome result (IsUpTo (greatest self)) }
    {
        let n = number_word(word)?;
        if n < 1 || n > u64::from(self.greatest()) {
            return None;
        }
        Some(n as u32)
    }
}

/// Returns the number that a word spells: decimal digits without sign and without leading zero, at most
/// 9,223,372,036,854,775,807.
pub fn number_word(word: &str) -> Option<u64>
    ensures { result ≡ number_word word.now }
{
    number_of(word.as_bytes()).ok()
}

/// The numbers that words have chosen.
#[derive(Clone, Copy)]
pub struct Chosen {
    pub raft_pollers: Option<u32>,
    pub apply_pollers: Option<u32>,
    pub batch: Option<u32>,
    pub chunk: Option<u32>,
}

impl Chosen {
    /// Returns the settings with the number of one more; `None` if one was chosen for it before.
    fn choose(self, setting: Setting, number: u32) -> Option<Chosen>
        requires chosen { IsLimited self }
        requires limited { IsUpTo (greatest setting) number }
        ensures value { result ≡ choose self setting number }
        ensures limited { IfSome result IsLimited }
    {
        match setting {
            Setting::RaftPollers if self.raft_pollers.is_none() => Some(Chosen {
                raft_pollers: Some(number),
                ..self
            }),
            Setting::ApplyPollers if self.apply_pollers.is_none() => Some(Chosen {
                apply_pollers: Some(number),
                ..self
            }),
            Setting::Batch if self.batch.is_none() => Some(Chosen {
                batch: Some(number),
                ..self
            }),
            Setting::Chunk if self.chunk.is_none() => Some(Chosen {
                chunk: Some(number),
                ..self
            }),
            _ => None,
        }
    }

    /// Returns the settings with what two words choose.
    fn with(self, name: &str, number: &str) -> Option<Chosen>
        requires { IsLimited self }
        ensures value { result ≡ chosen_with self name.now number.now }
        ensures limited { IfSome result IsLimited }
    {
        let setting = Setting::named(name)?;
        let number = setting.number(number)?;
        self.choose(setting, number)
    }
}

/// Returns the settings with what all words choose.
fn chosen_by(chosen: Chosen, words: &[String]) -> Option<Chosen>
    requires { IsLimited chosen }
    ensures value { result ≡ chosen_by chosen (bytes_of words.now) }
    ensures limited { IfSome result IsLimited }
{
    match words {
        [] => Some(chosen),
        [name, number, rest @ ..] => {
            let more = chosen.with(name.as_str(), number.as_str())?;
            chosen_by(more, rest)
        }
        _ => None,
    }
}

/// Returns the options that words give: settings in any order, each at most once, its number as the next word.
pub fn options_of(words: &[String]) -> Option<Options>
    ensures { result ≡ options_of (bytes_of words.now) }
{
    let nothing = Chosen {
        raft_pollers: None,
        apply_pollers: None,
        batch: None,
        chunk: None,
    };
    let chosen = chosen_by(nothing, words)?;
    Options::new(
        chosen.raft_pollers.unwrap_or(2),
        chosen.apply_pollers.unwrap_or(2),
        chosen.batch.unwrap_or(64),
        chosen.chunk.unwrap_or(1_024),
    )
}
