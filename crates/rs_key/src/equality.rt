ghost use Rattle.rs_key.specs.Keys.{same_bytes};
ghost use Rattle.rs_key.specs.Ranges.{same_bounds};
ghost use Rattle.rs_key.specs.Epochs.{same_epochs};

use crate::epoch::Epoch;
use crate::key::Key;
use crate::range::Range;
use crate::value::Value;
use rs_rows::Same;

impl Same for Epoch {
    ghost equals = { same_epochs };

    fn is_same(&self, other: &Epoch) -> bool {
        self.version == other.version && self.conf_ver == other.conf_ver
    }
}

impl Same for Key {
    ghost equals = { same_bytes };

    fn is_same(&self, other: &Key) -> bool {
        self.as_bytes() == other.as_bytes()
    }
}

impl Same for Value {
    ghost equals = { same_bytes };

    fn is_same(&self, other: &Value) -> bool {
        self.as_bytes() == other.as_bytes()
    }
}

impl Same for Range {
    ghost equals = { same_bounds };

    fn is_same(&self, other: &Range) -> bool {
        self.start().is_same(other.start()) && self.end().is_same(other.end())
    }
}
