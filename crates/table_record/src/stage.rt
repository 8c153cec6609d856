// Records that are staged: stored one behind another while the lines that write them are judged, before it is known where
// their part begins. A record that does not fit is left out; nothing is said of a stage then.
ghost use Rattle.std.specs.Prelude.{◌≡◌, ◌+◌, ◌*◌, ◌≤◌, ◌<◌, refl};
ghost use Rattle.std.proofs.Common.{lit<};
ghost use Rattle.table_record.specs.Way.Stage.{put_at, staged_model_width, staged_model_words, staged_model_at, staged_step_width, staged_step_words, staged_step_at};

use crate::{ModelRecord, Words};

// A model's record, and the line of its SGR (0 for none), which the table does not hold.
#[derive(Clone, Copy)]
pub struct StagedModel {
    pub model: ModelRecord,
    pub sgr: u64,
}

// How many words a staged model has.
pub const MODEL_WIDTH: usize = 6;

// A step before its target is known: it has its name instead, and tells whether its amount is a Mult (1) or not (0).
#[derive(Clone, Copy)]
pub struct StagedStep {
    pub kind: u64,
    pub name: u64,
    pub name_size: u64,
    pub amount: u64,
    pub mult: u64,
    pub side: u64,
    pub side_size: u64,
    pub line: u64,
}

// How many words a staged step has.
pub const STEP_WIDTH: usize = 8;

impl Words for StagedModel {
    ghost WIDTH = { staged_model_width };

    const WIDTH: usize = MODEL_WIDTH;

    ghost words = { staged_model_words };

    ghost stands = { staged_model_at };

    fn at(stage: &[u64], at: usize) -> Self {
        StagedModel {
            model: ModelRecord::at(stage, at),
            sgr: stage[at + table_layout::MODEL_WIDTH],
        }
    }

    fn put_at(self, stage: &mut [u64], at: usize) {
        self.model.put_at(stage, at);
        stage[at + table_layout::MODEL_WIDTH] = self.sgr;
    }

    ghost some_words = { lit< tt };

    ghost all_words = { λ x. refl };
}

impl Words for StagedStep {
    ghost WIDTH = { staged_step_width };

    const WIDTH: usize = STEP_WIDTH;

    ghost words = { staged_step_words };

    ghost stands = { staged_step_at };

    fn at(stage: &[u64], at: usize) -> Self {
        StagedStep {
            kind: stage[at],
            name: stage[at + 1],
            name_size: stage[at + 2],
            amount: stage[at + 3],
            mult: stage[at + 4],
            side: stage[at + 5],
            side_size: stage[at + 6],
            line: stage[at + 7],
        }
    }

    fn put_at(self, stage: &mut [u64], at: usize) {
        let words = [
            self.kind,
            self.name,
            self.name_size,
            self.amount,
            self.mult,
            self.side,
            self.side_size,
            self.line,
        ];
        base::put_words(stage, at, &words);
    }

    ghost some_words = { lit< tt };

    ghost all_words = { λ x. refl };
}

// Stores the words of a record behind those of `index` records that are as wide.
pub fn put<W: Words>(stage: &mut [u64], index: u64, item: W)
    ensures { stage.new ≡ put_at (W.WIDTH * index) (W.words item) stage.old }
{
    let room = stage.len() / W::WIDTH;
    if index < room as u64 {
        item.put_at(stage, W::WIDTH * (index as usize));
    }
}
