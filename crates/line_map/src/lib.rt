// Document 01, "Pin maps": the lines above Pin_list, and the pins below it.
// A line is first read on its own, then judged against what has been read of the map.
#![tactic(auto)]

ghost use Rattle.std.specs.Prelude.{◌≡◌, not, ◌<◌, eqb};
ghost use Rattle.base.specs.If.{provided◌then◌else◌, both, either};
ghost use Rattle.lex_line.specs.Words.{words};
ghost use Rattle.line_map.specs.PinMap.{order_of, wrong_map_line, order_line, list_line, size_line, map_line_of, new_map, is_ordered, is_map_out_of_order, map_next, with_pin, pins_lack, is_wrong_grid};
ghost use Rattle.line_map.specs.Way.Bounded.{BoundedMap};
ghost use Rattle.line_map.specs.Way.Rule.{map_rule, pin_rule};

// What has been read of a map. The order is its number in the table plus 1, so that a 0 in order, rows or columns means
// that it has not been given yet.
#[derive(Clone, Copy)]
pub struct Map {
    pub order: u64,
    pub rows: u64,
    pub columns: u64,
    pub pins: u64,
}

// A line above Pin_list: what it says, whether its rest is right, whether its number is well formed and within its
// bounds, and the value that it gives.
#[derive(Clone, Copy)]
pub struct MapLine {
    pub says: u64,
    pub right: bool,
    pub formed: bool,
    pub bounded: bool,
    pub value: u64,
}

// What a line above Pin_list says, as the definitions number it.
const NOTHING: u64 = 0;

const ORDER: u64 = 1;

const COLUMNS: u64 = 2;

const ROWS: u64 = 3;

const PIN_LIST: u64 = 4;

// "Row_ordered, Column_ordered or Un_ordered": the number in the table plus 1; 0 for any other word.
const ROW_ORDERED: u64 = table_layout::code::ROW_ORDERED + 1;

const COLUMN_ORDERED: u64 = table_layout::code::COLUMN_ORDERED + 1;

const UN_ORDERED: u64 = table_layout::code::UN_ORDERED + 1;

fn order_of(word: &[u8]) -> u64
    ensures { result ≡ order_of word.now }
{
    if lex_line::same_bytes(word, b"Row_ordered") {
        return ROW_ORDERED;
    }
    if lex_line::same_bytes(word, b"Column_ordered") {
        return COLUMN_ORDERED;
    }
    if lex_line::same_bytes(word, b"Un_ordered") {
        return UN_ORDERED;
    }
    0
}

// "A line its place takes with a wrong rest is 11".
fn wrong_line(says: u64) -> MapLine
    ensures { result ≡ wrong_map_line says }
{
    MapLine {
        says,
        right: false,
        formed: true,
        bounded: true,
        value: 0,
    }
}

fn order_line(content: &[u8]) -> MapLine
    ensures { result ≡ order_line (words content.now) }
{
    let few = lex_line::first_two_words(content);
    if few.count != 2 {
        return wrong_line(ORDER);
    }
    let second = few.second;
    let order = order_of(lex_line::marked(content, second));
    if order == 0 {
        return wrong_line(ORDER);
    }
    MapLine {
        says: ORDER,
        right: true,
        formed: true,
        bounded: true,
        value: order,
    }
}

fn list_line(content: &[u8]) -> MapLine
    ensures { result ≡ list_line (words content.now) }
{
    let few = lex_line::first_two_words(content);
    if few.count != 1 {
        return wrong_line(PIN_LIST);
    }
    MapLine {
        says: PIN_LIST,
        right: true,
        formed: true,
        bounded: true,
        value: 0,
    }
}

// "`Num_of_columns = c` and `Num_of_rows = r`": one word on each side of the sign.
fn size_line(says: u64, content: &[u8]) -> MapLine
    ensures { result ≡ size_line says content.now }
{
    let sign = lex_line::equals_at(content);
    if content.len() <= sign {
        return wrong_line(says);
    }
    let left = lex_line::first_two_words(&content[..sign]);
    if left.count != 1 {
        return wrong_line(says);
    }
    let after = sign + 1;
    let rest = &content[after..];
    let right = lex_line::first_two_words(rest);
    if right.count != 1 {
        return wrong_line(says);
    }
    let first = right.first;
    let whole = lex_number::read_integer(lex_line::marked(rest, first));
    let bounded = lex_number::is_whole_within(1, table_layout::bound::MAP_PINS, whole);
    MapLine {
        says,
        right: true,
        formed: whole.is_some(),
        bounded,
        value: whole.unwrap_or(0),
    }
}

// Reads a line above Pin_list. In the forms with `=` the sign ends the first word.
pub fn map_line(content: &[u8]) -> MapLine
    ensures { result ≡ map_line_of content.now }
{
    let first = lex_line::first_word(content);
    if lex_line::same_bytes(first, b"Pin_order") {
        return order_line(content);
    }
    if lex_line::same_bytes(first, b"Pin_list") {
        return list_line(content);
    }
    let sign = lex_line::equals_at(content);
    let name = lex_line::first_word(&content[..sign]);
    if lex_line::same_bytes(name, b"Num_of_columns") {
        return size_line(COLUMNS, content);
    }
    if lex_line::same_bytes(name, b"Num_of_rows") {
        return size_line(ROWS, content);
    }
    MapLine {
        says: NOTHING,
        right: true,
        formed: true,
        bounded: true,
        value: 0,
    }
}

pub fn new_map() -> Map
    ensures { result ≡ new_map }
{
    Map {
        order: 0,
        rows: 0,
        columns: 0,
        pins: 0,
    }
}

// Row_ordered or Column_ordered.
fn is_ordered(m: Map) -> bool
    ensures { result ≡ is_ordered m }
{
    ROW_ORDERED <= m.order && m.order <= COLUMN_ORDERED
}

// Whether a size line is out of order: sizes are "for the ordered two" only, and each is given once.
fn takes_no_size(m: Map, given: u64) -> bool
    ensures { result ≡ either (not (is_ordered m)) (not (eqb given 0)) }
{
    !is_ordered(m) || given != 0
}

// Whether Pin_list is out of order:
// "for the ordered two `Num_of_columns = c` and `Num_of_rows = r`, either first; then `Pin_list`".
fn takes_no_list(m: Map) -> bool
    ensures { result ≡ either (eqb m.order 0) (both (is_ordered m) (either (eqb m.rows 0) (eqb m.columns 0))) }
{
    m.order == 0 || is_ordered(m) && (m.rows == 0 || m.columns == 0)
}

// "repeated or out of order 12"; a line that no map takes is 12 too.
fn is_out_of_order(l: MapLine, m: Map) -> bool
    ensures { result ≡ is_map_out_of_order l m }
{
    match l.says {
        ORDER => m.order != 0,
        COLUMNS => takes_no_size(m, m.columns),
        ROWS => takes_no_size(m, m.rows),
        PIN_LIST => takes_no_list(m),
        _ => true,
    }
}

// The rule that a line above Pin_list breaks, 0 for none.
pub fn map_rule(l: MapLine, m: Map) -> u64
    ensures { result ≡ map_rule l m }
{
    if !l.right {
        return base::refusal::ARGUMENT;
    }
    if is_out_of_order(l, m) {
        return base::refusal::LINE;
    }
    if !l.formed {
        return base::refusal::NUMBER;
    }
    if !l.bounded {
        return base::refusal::RANGE;
    }
    0
}

// The value of the line if the line says `asked`, else the value that is there already.
fn given(l: MapLine, asked: u64, there: u64) -> u64
    ensures { result ≡ (provided eqb l.says asked then l.value else there) }
{
    if l.says == asked { l.value } else { there }
}

// The map after a line above Pin_list that breaks no rule.
pub fn map_next(l: MapLine, m: Map) -> Map
    ensures { result ≡ map_next l m }
{
    Map {
        order: given(l, ORDER, m.order),
        rows: given(l, ROWS, m.rows),
        columns: given(l, COLUMNS, m.columns),
        pins: m.pins,
    }
}

// The rule that the line of a pin breaks, 0 for none. `total` is how many pins all maps have before it. After the name
// of the pin a line may have the name of a signal, which is not read.
pub fn pin_rule(content: &[u8], m: Map, total: u64) -> u64
    ensures { result ≡ pin_rule content.now m total }
{
    let few = lex_line::first_two_words(content);
    if 2 < few.count {
        return base::refusal::ARGUMENT;
    }
    if table_layout::bound::MAP_PINS <= m.pins {
        return base::refusal::LIMIT;
    }
    if table_layout::bound::PINS <= total {
        return base::refusal::LIMIT;
    }
    0
}

// The map after one more pin. If the pin breaks no rule, there are fewer than 256 pins before it.
pub fn with_pin(m: Map) -> Map
    requires { m.pins < 4_294_967_296 }
    ensures { result ≡ with_pin m }
{
    Map {
        pins: m.pins + 1,
        ..m
    }
}

// "at least one pin".
pub fn pins_lack(m: Map) -> bool
    ensures { result ≡ pins_lack m }
{
    m.pins == 0
}

// "at most rows times columns pins", fewer if a corner is missing; more are 16 at the keyword that ends the map.
pub fn is_wrong_grid(m: Map) -> bool
    requires { BoundedMap m }
    ensures { result ≡ is_wrong_grid m }
{
    if is_ordered(m) {
        return m.rows * m.columns < m.pins;
    }
    false
}
