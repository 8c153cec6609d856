// Rule 19 of pin maps and of their pins.
ghost use Rattle.std.specs.Prelude.{◌≡◌, ◌+◌, ◌*◌, ◌≤◌, length};
ghost use Rattle.cross_rules.specs.Way.Findings.{map_findings};
ghost use Rattle.table_layout.specs.Layout.{pins, pin_width};
ghost use Rattle.table_layout.specs.Bounds.{most_pins};
ghost use Rattle.table_layout.specs.View.{view_of};
ghost use Rattle.table_record.specs.Way.Standing.{count_of, Rooms};
ghost use Rattle.table_name.specs.Way.Hash.{marks_many};
ghost use Rattle.doc.specs.Document.{document_of};
ghost use Rattle.cross_rules.specs.Way.First.{first_in};
ghost use Rattle.cross_rules.specs.Way.HoldsText.{HoldsText};
ghost use Rattle.cross_names.specs.Way.Pins.{pins_from, pins_of_map};

use cross_rules::Finding;
use table_layout::View;
use table_record::MapRecord;

// A stamp that no map has: the stamp of a map is its index. As the stamps differ, the marks of one map need not be cleared
// for the next.
const UNMARKED: u8 = table_layout::bound::MAPS as u8;

// The first of a map's pins that has the name of an earlier pin. The record of the map's first pin begins at word
// `base`; its index among all pins is `first`.
fn pin_finding(
    text: &[u8],
    table: &[u64],
    marks: &mut [u8; table_name::MARKS],
    stamp: u8,
    base: usize,
    first: u64,
    count: u64,
) -> Finding
    requires { (base + pin_width * count ≤ length table.now) × (first + count ≤ most_pins) × (length marks.old ≡ marks_many) }
    ensures { (result ≡ first_in (pins_from text.now table.now base first 0 count)) × (length marks.new ≡ marks_many) }
{
    for i in 0..count {
        if cross_rules::is_repeated_marked(
            text,
            table,
            marks,
            stamp,
            base,
            table_layout::PIN_WIDTH,
            i,
        ) {
            return Finding {
                rule: base::refusal::TWICE,
                line: cross_rules::nth_line(text, table_layout::PINS, first + i),
            };
        }
    }
    Finding { rule: 0, line: 0 }
}

// The same for one map.
fn own_finding(
    text: &[u8],
    table: &[u64],
    view: View,
    marks: &mut [u8; table_name::MARKS],
    stamp: u8,
    map: MapRecord,
) -> Finding
    requires { Rooms table.now view × (map.first + map.pins ≤ count_of view pins) × (length marks.old ≡ marks_many) }
    ensures { (result ≡ first_in (pins_of_map text.now table.now view map)) × (length marks.new ≡ marks_many) }
{
    let bases = view.bases;
    let first = map.first;
    let base = bases[table_layout::PINS] + table_layout::PIN_WIDTH * (first as usize);
    pin_finding(text, table, marks, stamp, base, first, map.pins)
}

// The first line that breaks rule 19: a map with the name of an earlier map, or a pin with the name of an earlier pin of its map.
pub fn map_finding(text: &[u8], table: &[u64], view: View) -> Finding
    requires { HoldsText text.now table.now × (Some view ≡ view_of table.now) }
    ensures { result ≡ first_in (map_findings (document_of text.now) (document_of text.now).maps) }
{
    let bases = view.bases;
    let base = bases[table_layout::MAPS];
    let count = view.counts[table_layout::MAPS];
    let mut marks = [UNMARKED; table_name::MARKS];
    for i in 0..count {
        if cross_rules::is_repeated_name(text, table, base, table_layout::MAP_WIDTH, i) {
            return Finding {
                rule: base::refusal::TWICE,
                line: cross_rules::nth_line(text, table_layout::MAPS, i),
            };
        }
        let map = table_record::nth::<MapRecord>(table, view, i);
        let found = own_finding(text, table, view, &mut marks, i as u8, map);
        if found.rule != 0 {
            return found;
        }
    }
    Finding { rule: 0, line: 0 }
}
