//! The numbers of the rules of typing, which the program prints. A rule has its name of the definitions
//! (`dh_syntax/specs/Typing/TypeRules`).

pub const UNBOUND_VARIABLE: u8 = 1;

pub const SORT_HAS_NO_TYPE: u8 = 2;

pub const LAMBDA_DOMAIN: u8 = 3;

pub const LAMBDA_BODY: u8 = 4;

pub const FORALL_DOMAIN: u8 = 5;

pub const FORALL_RANGE: u8 = 6;

pub const NO_FUNCTION: u8 = 7;

pub const WRONG_ARGUMENT: u8 = 8;

pub const LET_ANNOTATION: u8 = 9;

pub const CONDITION_NO_BOOL: u8 = 10;

pub const BRANCHES_NOT_IN_TYPE: u8 = 11;

pub const BRANCHES_DIFFER: u8 = 12;

pub const LEFT_SIDE: u8 = 13;

pub const RIGHT_SIDE: u8 = 14;

pub const EMPTY_LIST_ANNOTATION: u8 = 15;

pub const ELEMENTS_NOT_IN_TYPE: u8 = 16;

pub const ELEMENTS_DIFFER: u8 = 17;

pub const SOME_NOT_IN_TYPE: u8 = 18;

pub const FIELD_TYPE_NO_UNIVERSE: u8 = 19;

pub const FIELD_OF_SORT: u8 = 20;

pub const ALTERNATIVE_NO_UNIVERSE: u8 = 21;

pub const NOTHING_TO_SELECT: u8 = 22;

pub const PROJECTION_NO_RECORD: u8 = 23;

pub const PROJECTION_LACKS_FIELD: u8 = 24;

pub const TYPED_PROJECTION_NO_RECORD: u8 = 25;

pub const TYPED_PROJECTION_NO_RECORD_TYPE: u8 = 26;

pub const TYPED_PROJECTION_DIFFERS: u8 = 27;

pub const LEFT_NO_RECORD: u8 = 28;

pub const RIGHT_NO_RECORD: u8 = 29;

pub const FIELDS_COLLIDE: u8 = 30;

pub const LEFT_NO_RECORD_TYPE: u8 = 31;

pub const RIGHT_NO_RECORD_TYPE: u8 = 32;

pub const FIELD_TYPES_COLLIDE: u8 = 33;

pub const HANDLERS_NO_RECORD: u8 = 34;

pub const MERGE_NO_UNION: u8 = 35;

pub const HANDLER_LABELS: u8 = 36;

pub const HANDLER_NO_FUNCTION: u8 = 37;

pub const HANDLER_RESULT_DEPENDS: u8 = 38;

pub const HANDLER_RESULTS_DIFFER: u8 = 39;

pub const MERGE_ANNOTATION: u8 = 40;

pub const MERGE_EMPTY: u8 = 41;

pub const TO_MAP_NO_RECORD: u8 = 42;

pub const TO_MAP_FIELDS_DIFFER: u8 = 43;

pub const TO_MAP_EMPTY: u8 = 44;

pub const TO_MAP_ANNOTATION: u8 = 45;

pub const INTERPOLATION_NO_TEXT: u8 = 46;

pub const ASSERTION_NOT_IN_TYPE: u8 = 47;

pub const ASSERTION_NO_EQUIVALENCE: u8 = 48;

pub const ASSERTION_FAILS: u8 = 49;

pub const SIDES_DIFFER: u8 = 50;

pub const SIDES_NOT_IN_TYPE: u8 = 51;

pub const ANNOTATION_DIFFERS: u8 = 52;

pub const COMPLETION_HAS_NO_TYPE: u8 = 53;

pub const UPDATE_NO_RECORD: u8 = 54;

pub const UPDATE_OF_SORT: u8 = 55;

pub const NOT_RESOLVED: u8 = 56;
