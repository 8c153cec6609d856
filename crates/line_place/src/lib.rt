// The places of a file, and how a line leads from one place to the next by its words alone. Document 01, "Lines and
// keywords", "Paths", "Pin maps" and "Sections and matrices", says which lines each place takes.
#![tactic(auto)]

ghost use Rattle.std.specs.Prelude.{◌≡◌};
ghost use Rattle.line_place.specs.Place.{
  opens_header_text,
  stands_in_header,
  leads_in_header,
  leads_in_family,
  leads_in_model,
  opens_matrix,
  leads_in_section,
  is_row_or_bandwidth,
  leads_in_matrix,
  leads_after_family,
  is_in_header,
  is_in_family,
  is_in_model,
  moved,
  is_text,
  moved_by_line,
};

// "Lines before [Begin Header]".
pub const BEFORE: u64 = 0;

// After [Begin Header]; "[ICM Ver] 1.1 comes first".
pub const OPENED: u64 = 1;

// In the header, no text block open.
pub const HEADER: u64 = 2;

// In a text block of the header.
pub const HEADER_TEXT: u64 = 3;

// After [End Header].
pub const BETWEEN: u64 = 4;

// In the family, nothing open.
pub const FAMILY: u64 = 5;

// In the text block of [ICM Family Description].
pub const FAMILY_TEXT: u64 = 6;

// In [ICM Model List].
pub const LIST: u64 = 7;

// In a model, "before the model's first keyword".
pub const HEAD: u64 = 8;

// In [Tree Path Description].
pub const PATH: u64 = 9;

// In the text block of [ICM Model Description].
pub const MODEL_TEXT: u64 = 10;

// In a pin map, above its Pin_list.
pub const MAP_HEAD: u64 = 11;

// In a pin map, below its Pin_list.
pub const PIN_LIST: u64 = 12;

// After [End ICM Family], outside sections.
pub const AFTER: u64 = 13;

// In a section, before [Derivation Method].
pub const SECTION_HEAD: u64 = 14;

// In a section, after [Derivation Method] and before the first matrix.
pub const SECTION: u64 = 15;

// In a matrix.
pub const MATRIX: u64 = 16;

// After [End].
pub const DONE: u64 = 17;

// The place that takes nothing: a misplaced keyword leads here, and no line leads away.
pub const DEAD: u64 = 18;

// "as text blocks, [Source], [Notes], [Disclaimer], [Copyright], [Support], [Redistribution Text]".
pub fn opens_header_text(key: u64) -> bool
    ensures { result ≡ opens_header_text key }
{
    if key == lex_keyword::SOURCE {
        return true;
    }
    if key == lex_keyword::NOTES {
        return true;
    }
    if key == lex_keyword::DISCLAIMER {
        return true;
    }
    if key == lex_keyword::COPYRIGHT {
        return true;
    }
    if key == lex_keyword::SUPPORT {
        return true;
    }
    key == lex_keyword::REDISTRIBUTION_TEXT
}

// "[File Name] and [File Rev] are required; optional are [Date] .. [Redistribution]".
pub fn stands_in_header(key: u64) -> bool
    ensures { result ≡ stands_in_header key }
{
    if key == lex_keyword::FILE_NAME {
        return true;
    }
    if key == lex_keyword::FILE_REV {
        return true;
    }
    if key == lex_keyword::DATE {
        return true;
    }
    key == lex_keyword::REDISTRIBUTION
}

// Where a keyword leads in the header, after [ICM Ver].
fn leads_in_header(key: u64) -> u64
    ensures { result ≡ leads_in_header key }
{
    if stands_in_header(key) {
        return HEADER;
    }
    if opens_header_text(key) {
        return HEADER_TEXT;
    }
    if key == lex_keyword::END_HEADER {
        return BETWEEN;
    }
    DEAD
}

// Where a keyword leads in the family, outside models: "pin maps anywhere outside models".
fn leads_in_family(key: u64) -> u64
    ensures { result ≡ leads_in_family key }
{
    if key == lex_keyword::ICM_PIN_MAP {
        return MAP_HEAD;
    }
    if key == lex_keyword::BEGIN_ICM_MODEL {
        return HEAD;
    }
    if key == lex_keyword::END_ICM_FAMILY {
        return AFTER;
    }
    if key == lex_keyword::MANUFACTURER {
        return FAMILY;
    }
    if key == lex_keyword::ICM_MODEL_LIST {
        return LIST;
    }
    if key == lex_keyword::ICM_FAMILY_DESCRIPTION {
        return FAMILY_TEXT;
    }
    DEAD
}

// Where a keyword leads in a model: "Then [Tree Path Description] once, [ICM Model Description] at most once".
fn leads_in_model(key: u64) -> u64
    ensures { result ≡ leads_in_model key }
{
    if key == lex_keyword::TREE_PATH_DESCRIPTION {
        return PATH;
    }
    if key == lex_keyword::ICM_MODEL_DESCRIPTION {
        return MODEL_TEXT;
    }
    if key == lex_keyword::END_ICM_MODEL {
        return FAMILY;
    }
    DEAD
}

// "sections with R, L, G, C matrices".
pub fn opens_matrix(key: u64) -> bool
    ensures { result ≡ opens_matrix key }
{
    if key == lex_keyword::RESISTANCE_MATRIX {
        return true;
    }
    if key == lex_keyword::INDUCTANCE_MATRIX {
        return true;
    }
    if key == lex_keyword::CONDUCTANCE_MATRIX {
        return true;
    }
    key == lex_keyword::CAPACITANCE_MATRIX
}

// Where a keyword leads in a section, after [Derivation Method].
fn leads_in_section(key: u64) -> u64
    ensures { result ≡ leads_in_section key }
{
    if opens_matrix(key) {
        return MATRIX;
    }
    if key == lex_keyword::END_ICM_SECTION {
        return AFTER;
    }
    DEAD
}

// The keywords that do not end a matrix; any other is
// "the first keyword after the matrix that is not [Row] or [Bandwidth]".
pub fn is_row_or_bandwidth(key: u64) -> bool
    ensures { result ≡ is_row_or_bandwidth key }
{
    if key == lex_keyword::ROW {
        return true;
    }
    key == lex_keyword::BANDWIDTH
}

fn leads_in_matrix(key: u64) -> u64
    ensures { result ≡ leads_in_matrix key }
{
    if is_row_or_bandwidth(key) {
        return MATRIX;
    }
    leads_in_section(key)
}

// Where a keyword leads after [End ICM Family], outside sections.
fn leads_after_family(key: u64) -> u64
    ensures { result ≡ leads_after_family key }
{
    if key == lex_keyword::BEGIN_ICM_SECTION {
        return SECTION_HEAD;
    }
    if key == lex_keyword::THE_END {
        return DONE;
    }
    DEAD
}

// "A path, map or list closes at the next keyword", and so does a text block. So the keywords that may follow are those
// of the header, family or model around it.
fn is_in_header(place: u64) -> bool
    ensures { result ≡ is_in_header place }
{
    if place == HEADER {
        return true;
    }
    place == HEADER_TEXT
}

pub fn is_in_family(place: u64) -> bool
    ensures { result ≡ is_in_family place }
{
    if place == FAMILY {
        return true;
    }
    if place == FAMILY_TEXT {
        return true;
    }
    if place == LIST {
        return true;
    }
    if place == MAP_HEAD {
        return true;
    }
    place == PIN_LIST
}

pub fn is_in_model(place: u64) -> bool
    ensures { result ≡ is_in_model place }
{
    if place == HEAD {
        return true;
    }
    if place == PATH {
        return true;
    }
    place == MODEL_TEXT
}

// Where a keyword leads from a place.
pub fn moved(place: u64, key: u64) -> u64
    ensures { result ≡ moved place key }
{
    if place == MATRIX {
        return leads_in_matrix(key);
    }
    if is_in_model(place) {
        return leads_in_model(key);
    }
    if is_in_family(place) {
        return leads_in_family(key);
    }
    if is_in_header(place) {
        return leads_in_header(key);
    }
    if place == SECTION {
        return leads_in_section(key);
    }
    if place == AFTER {
        return leads_after_family(key);
    }
    if place == OPENED {
        if key == lex_keyword::ICM_VER {
            return HEADER;
        }
        return DEAD;
    }
    if place == BETWEEN {
        if key == lex_keyword::BEGIN_ICM_FAMILY {
            return FAMILY;
        }
        return DEAD;
    }
    if place == SECTION_HEAD {
        if key == lex_keyword::DERIVATION_METHOD {
            return SECTION;
        }
        return DEAD;
    }
    if place == BEFORE {
        if key == lex_keyword::BEGIN_HEADER {
            return OPENED;
        }
        return BEFORE;
    }
    place
}

// "A first non-blank `[` outside column 1 is 6, except in a text block".
pub fn is_text(place: u64) -> bool
    ensures { result ≡ is_text place }
{
    if place == HEADER_TEXT {
        return true;
    }
    if place == FAMILY_TEXT {
        return true;
    }
    place == MODEL_TEXT
}

// Where a line without a keyword leads, by its first word: Pin_list opens the pins.
pub fn moved_by_line(place: u64, first: &[u8]) -> u64
    ensures { result ≡ moved_by_line place first.now }
{
    if place == MAP_HEAD {
        if lex_line::same_bytes(first, b"Pin_list") {
            return PIN_LIST;
        }
        return MAP_HEAD;
    }
    place
}
