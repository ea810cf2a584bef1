//! The limits of a source: its bytes, its names, how deep it nests, and how many operators an
//! expression has.

/// What stands first, a piece, what stands behind the pieces, another piece, how often each of the
/// two stands there, and the answer.
pub type LimitRow<'a> = (&'a str, &'a str, &'a str, &'a str, u32, &'a str);

/// The function's own bracket is open too, and so is the one behind an `if` within it.
#[rattlefmt::skip]
pub const LIMITS: &[LimitRow<'static>] = &[
    ("", " ", "", "", 1048576, "0 0 0 0 0"),
    ("", " ", "", "", 1048577, "1048576: too long"),
    ("int ", "n", ";", "", 64, "0 1 0 0 0"),
    ("int ", "n", ";", "", 65, "4: bad token"),
    ("int main(void) { return ", "(", "1", ")", 100, "124: too deep"),
    ("int f(void){", "{", ";", "}", 100, "112: too deep"),
    ("int f(void){", "if(a)", ";", "", 100, "510: too deep"),
    ("int f(void){", "if(a);else ", ";", "", 100, "1104: too deep"),
    ("int f(void){", "if(a)", "x=EOF;}", "", 98, "0 0 0 0 1"),
    ("int f(void){", "if(a)", "x=EOF;}", "", 99, "509: too deep"),
    ("int f(void){", "if(a)", "x=1;EOF->f=1;}", "", 99, "0 0 0 0 1"),
    ("int f(void){x=", "(", "1", ")", 99, "213: unexpected"),
    ("int f(void){x=", "- ", "1;}", "", 99, "0 0 0 0 1"),
    ("int f(void){x=", "- ", "1;}", "", 100, "214: too deep"),
    ("int f(void){x=", "- ", ";}", "", 100, "214: too deep"),
    ("int f(void){x=", "- ", ";}", "", 99, "212: unexpected"),
    ("int f(void){x=", "- ", "1 EOF;}", "", 99, "214: unexpected"),
    ("int f(void){x=", "(", "1 EOF;}", "", 99, "115: too deep"),
    ("int f(void){x=", "(", "char", "", 100, "114: left out char"),
    ("int f(void){x=", "(", "$", "", 100, "114: bad byte"),
    ("int f(void){x=", "(", "\n#define X 1", "", 100, "115: too deep"),
    ("int f(void){x=", "(void*)", "1;}", "", 99, "0 0 0 0 1"),
    ("int f(void){x=", "(void*)", "1;}", "", 100, "708: too deep"),
    ("int f(void){--", "(", "p)", "", 98, "114: unexpected"),
    ("int f(void){--", "(", "p)", "", 99, "113: too deep"),
    ("int f(void){x=", "1+", "1;}", "", 1000, "0 0 0 0 1"),
    ("int f(void){x=", "1+", "1;}", "", 1001, "2015: too deep"),
    ("int f(void){x=", "1+", "p->q;}", "", 999, "0 0 0 0 1"),
    ("int f(void){x=", "1+", "p->q;}", "", 1000, "2015: too deep"),
    ("int f(void){x=", "f(1+1)+", "1;}", "", 500, "0 0 0 0 1"),
    ("int f(void){x=", "f(1+1)+", "1+1;}", "", 500, "3515: too deep"),
    ("int f(void){x=", "1+", "1;x=1+1;}", "", 1000, "0 0 0 0 1"),
    ("int f(void){p->q=", "1+", "1;}", "", 1000, "0 0 0 0 1"),
    ("int f(void){f(1+1,", "1+", "1);}", "", 999, "0 0 0 0 1"),
    ("int f(void){f(1+1,", "1+", "1);}", "", 1000, "2017: too deep"),
    (r#"int f(void){printf("","#, "1+", "1,1+1);}", "", 1000, "0 0 0 0 1"),
    ("int f(void){int a=", "1+", "1,b=1+1;}", "", 1000, "0 0 0 0 1"),
    ("int f(void){for(x=1+1;", "1+", "1;x=1+1);}", "", 1000, "0 0 0 0 1"),
];
