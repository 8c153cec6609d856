// Classes of bytes. Each is a type of its own, so that what searches a run of a class is made for that class.
ghost use Rattle.std.specs.Prelude.{◌≡◌, ℕ, Bool};
ghost use Rattle.base.specs.Bytes.{is_blank, is_digit, is_letter, is_filled, is_printed, is_before, is_content};

pub trait ByteClass: Copy {
    // Which bytes are in the class.
    ghost holds: { Self → ℕ → Bool };

    fn contains(self, b: u8) -> bool
        ensures { result ≡ holds self b };
}

// A space or a TAB.
#[derive(Clone, Copy)]
pub struct Blank;

// Not blank: a byte of a word.
#[derive(Clone, Copy)]
pub struct Filled;

#[derive(Clone, Copy)]
pub struct Digit;

#[derive(Clone, Copy)]
pub struct Letter;

// A byte that a line may contain.
#[derive(Clone, Copy)]
pub struct Printed;

// Any byte but this one.
#[derive(Clone, Copy)]
pub struct Before(pub u8);

// Any byte but this comment byte, LF and CR: the content of a line.
#[derive(Clone, Copy)]
pub struct Content(pub u8);

impl ByteClass for Blank {
    ghost holds = { λ _ b. is_blank b };

    fn contains(self, b: u8) -> bool {
        crate::is_blank(b)
    }
}

impl ByteClass for Filled {
    ghost holds = { λ _ b. is_filled b };

    fn contains(self, b: u8) -> bool {
        !crate::is_blank(b)
    }
}

impl ByteClass for Digit {
    ghost holds = { λ _ b. is_digit b };

    fn contains(self, b: u8) -> bool {
        crate::is_digit(b)
    }
}

impl ByteClass for Letter {
    ghost holds = { λ _ b. is_letter b };

    fn contains(self, b: u8) -> bool {
        crate::is_letter(b)
    }
}

impl ByteClass for Printed {
    ghost holds = { λ _ b. is_printed b };

    fn contains(self, b: u8) -> bool {
        crate::is_printed(b)
    }
}

impl ByteClass for Before {
    ghost holds = { λ s b. is_before s.0 b };

    fn contains(self, b: u8) -> bool {
        b != self.0
    }
}

impl ByteClass for Content {
    ghost holds = { λ s b. is_content s.0 b };

    fn contains(self, b: u8) -> bool {
        if b == self.0 {
            return false;
        }
        b != b'\n' && b != b'\r'
    }
}
