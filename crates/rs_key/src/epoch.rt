ghost use Rattle.std.specs.Prelude.{◌≡◌, ◌<◌, ◌≤◌, ◌^◌};
ghost use Rattle.rs_key.specs.Epochs.{fits, after_split, after_prepare, after_commit, after_rollback, after_conf};

/// The epoch of a region: `conf_ver` counts the changes of its peers, `version` those of its range.
#[derive(Clone, Copy, Debug, PartialEq, Eq)]
pub struct Epoch {
    pub conf_ver: u64,
    pub version: u64,
}

/// The kinds of entries, by what of an epoch they compare.
#[derive(Clone, Copy, Debug, PartialEq, Eq)]
pub enum Kind {
    Empty,
    Write,
    Split,
    Prepare,
    Commit,
    Rollback,
    Conf,
}

impl Epoch {
    /// Returns whether an entry of this kind that was proposed at the other epoch fits a region at this one.
    ///
    /// An empty entry always does. A write and a split compare the version, a conf change compares conf_ver,
    /// and the three kinds of a merge compare both.
    pub fn matches(&self, kind: Kind, other: &Epoch) -> bool
        ensures { result ≡ fits kind self.now other.now }
    {
        match kind {
            Kind::Empty => true,
            Kind::Write | Kind::Split => self.version == other.version,
            Kind::Prepare | Kind::Commit | Kind::Rollback => {
                self.version == other.version && self.conf_ver == other.conf_ver
            }
            Kind::Conf => self.conf_ver == other.conf_ver,
        }
    }

    /// Returns the epoch after a split. The version rises by the number of new regions.
    pub fn after_split(self, n: u64) -> Epoch
        requires version { self.version < 2 ^ 62 }
        requires few { n ≤ 64 }
        ensures { result ≡ after_split self n }
    {
        Epoch {
            version: self.version + n,
            ..self
        }
    }

    /// Returns the source's epoch after a prepared merge. Both numbers rise by one.
    pub fn after_prepare(self) -> Epoch
        requires conf_ver { self.conf_ver < 2 ^ 62 }
        requires version { self.version < 2 ^ 62 }
        ensures { result ≡ after_prepare self }
    {
        Epoch {
            conf_ver: self.conf_ver + 1,
            version: self.version + 1,
        }
    }

    /// Returns the target's epoch after a committed merge. The version becomes one more than the greater of both.
    pub fn after_commit(self, source: Epoch) -> Epoch
        requires version { self.version < 2 ^ 62 }
        requires source_version { source.version < 2 ^ 62 }
        ensures { result ≡ after_commit self source }
    {
        Epoch {
            version: self.version.max(source.version) + 1,
            ..self
        }
    }

    /// Returns the source's epoch after a rolled back merge. The version rises by one.
    pub fn after_rollback(self) -> Epoch
        requires { self.version < 2 ^ 62 }
        ensures { result ≡ after_rollback self }
    {
        Epoch {
            version: self.version + 1,
            ..self
        }
    }

    /// Returns the epoch after a conf change. `conf_ver` rises by one.
    pub fn after_conf(self) -> Epoch
        requires { self.conf_ver < 2 ^ 62 }
        ensures { result ≡ after_conf self }
    {
        Epoch {
            conf_ver: self.conf_ver + 1,
            ..self
        }
    }
}
