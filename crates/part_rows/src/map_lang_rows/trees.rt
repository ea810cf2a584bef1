//! The mappings that texts are read as.

/// A text, and the tree of its mapping. Functions are the kind 0 of matches, structs 1, globals 2,
/// mutexes 3.
#[rattlefmt::skip]
pub const TREES: &[(&str, &str)] = &[
    ("function f -> g;", "match 0 f g @0 "),
    (" struct s -> t;", "match 1 s t @1 "),
    ("//\nglobal none -> loop;", "match 2 none loop @3 "),
    ("/**/mutex m -> mutex;", "match 3 m mutex @4 "),
    ("mutex none -> none;", "match 3 none @0 "),
    ("init g = -1;", "init g @0 -@9 1@10 "),
    ("field s.f = x;", "field s f @0 x@12 "),
    ("check (a) * EOF;", "check @0 *@10 a@7 EOF@12 "),
    ("point f entry -> block 1;", "point f entry 1 @0 block 1 "),
    ("point f call 9 -> entry { };", "point f call 9 @0 entry 1 "),
    ("point f loop 0x10 -> call 010;", "point f loop 16 @0 call 8 "),
    ("point f entry -> entry { a.1 = .2; .07 = b.010; };",
     "point f entry 1 @0 entry 1 fill a.1 .2@31 fill .7 b.8@41 "),
    ("point f loop 1 -> call 1 { a = 1; } + g entry { b = c; };",
     "point f loop 1 @0 call 1 fill a 1@31 part g entry 1 fill b c@52 "),
];
