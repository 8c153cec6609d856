// Names told apart by their last bytes, before all their bytes are compared.
ghost use Rattle.std.specs.Prelude.{◌≡◌, true, false, ℕ, ◌+◌, ◌<◌};
ghost use Rattle.base.specs.Runs.{same};
ghost use Rattle.table_name.specs.Name.{name_at};
ghost use Rattle.table_name.specs.Way.Search.{Tails};

// How many bytes at the end of a name are looked at together.
const TAIL: usize = 4;

// The last four bytes of a name as one number; 0 if it has fewer.
pub fn tail_of(name: &[u8]) -> u64
    ensures { Tails name.now result }
{
    if name.len() < TAIL {
        return 0;
    }
    base::fast::four_at(name, name.len() - TAIL)
}

// Whether the bytes at offset `start` are certainly not this name, because their last bytes differ.
// So most names are told apart by one comparison.
pub fn ends_otherwise(text: &[u8], start: u64, name: &[u8], tail: u64) -> bool
    requires { Tails name.now tail }
    ensures { result ≡ true → (size : ℕ) → same name.now (name_at text.now start size) ≡ false }
{
    let from = start as usize;
    let long = name.len();
    if text.len() < long {
        return false;
    }
    if text.len() - long < from {
        return false;
    }
    if TAIL <= long {
        return base::fast::four_at(text, from + (long - TAIL)) != tail;
    }
    if long < 1 {
        return false;
    }
    text[from + (long - 1)] != name[long - 1]
}
