//! Points whose frame becomes several.

/// `deep` loops, and `step` calls it.
pub const OLD: &str = r"
int n;
int deep(int x) { int r; r = x; while (n < 9) { n = n + 1; } return r; }
int step(int x) { int s; s = deep(x + 1); return s; }
int side(int x) { return x; }
int main(void) { int v; v = step(1); n = side(v); return v; }
";

/// The loop of `deep` is one of `inner` too, which it calls by itself, and by way of `outer` and
/// `middle`.
pub const NEW: &str = r"
int n;
int inner(int x) { int b; b = x; while (n < 9) { n = n + 1; } return b; }
int middle(int m) { int c; c = inner(m); return c; }
int outer(int o) { int d; d = middle(o); return d; }
int deep(int x) {
    int r;
    int q;
    r = inner(x);
    q = outer(r);
    while (n < 9) { n = n + 1; }
    return r;
}
int wrap(int w) { int e; e = deep(w); return e; }
int step(int x) { int s; s = deep(x + 1); s = outer(s); s = wrap(s); return s; }
int main(void) { int v; v = step(1); return v; }
";

/// What comes of each mapping.
pub const ROWS: &str = r"
=== a loop to a call and a loop
point deep loop 1 -> call 1 + inner loop 1;
---
same
=== four parts
point deep loop 1 -> call 2 + outer call 1 + middle call 1 + inner loop 1;
---
same
=== an entry to a call and an entry
point deep entry -> call 1 + inner entry;
---
same
=== a call to a call and a call of the matched function
point step call 1 -> call 3 + wrap call 1;
---
same
=== the place of the last part may be an entry
point deep loop 1 -> call 1 + inner entry;
---
same
=== an expression of an added part reads the old frame
point deep loop 1 -> call 1 + inner loop 1 { b = x + r; };
---
same
=== slots of each part
point deep loop 1 -> call 1 { q = r; } + inner loop 1 { x = n; b = 1; };
---
same
=== slots of each part in the order of its function
point deep loop 1 -> call 1 { q = 1; x = 2; } + inner loop 1 { b = 7; x = 8; };
---
point deep loop 1 -> call 1 { x = 2; q = 1; } + inner loop 1 { x = 8; b = 7; };
=== one name of a slot in two parts
point deep loop 1 -> call 1 { x = 1; } + inner loop 1 { x = 2; };
---
same
=== no blanks
point deep loop 1->call 1+inner loop 1{x=1;};
---
point deep loop 1 -> call 1 + inner loop 1 { x = 1; };
=== nothing in braces
point deep loop 1 -> call 1 { } + inner loop 1 { };
---
point deep loop 1 -> call 1 + inner loop 1;
=== comments
point deep loop 1 -> call 1 /* then */ + inner loop 1;
---
point deep loop 1 -> call 1 + inner loop 1;
=== two split points in their order
point deep loop 1 -> call 1 + inner loop 1; point deep entry -> call 1 + inner entry;
---
point deep entry -> call 1 + inner entry;
point deep loop 1 -> call 1 + inner loop 1;
=== a function under another name
function deep -> outer; point deep loop 1 -> call 1 + middle call 1 + inner loop 1;
---
function deep -> outer;
point deep loop 1 -> call 1 + middle call 1 + inner loop 1;
=== the second part is of no function
point deep loop 1 -> call 1 + nope loop 1;
---
map m entry 1: unknown function
=== the last of four is of no function
point deep loop 1 -> call 2 + outer call 1 + middle call 1 + nope loop 1;
---
map m entry 1: unknown function
=== a middle part is of no function
point deep loop 1 -> call 2 + nope call 1 + middle call 1 + inner loop 1;
---
map m entry 1: unknown function
=== a part of an old function
point deep loop 1 -> call 1 + side entry;
---
map m entry 1: unknown function
=== the old function has no match
function deep -> none; point deep loop 1 -> call 1 + inner loop 1;
---
map m entry 2: unknown function
=== no function before no point
point deep loop 7 -> call 1 + nope loop 1;
---
map m entry 1: unknown function
=== the first part has no such point
point deep loop 1 -> call 9 + inner loop 1;
---
map m entry 1: unknown point
=== the last part has no such point
point deep loop 1 -> call 1 + inner loop 2;
---
map m entry 1: unknown point
=== a middle part has no such point
point deep loop 1 -> call 2 + outer call 2 + middle call 1 + inner loop 1;
---
map m entry 1: unknown point
=== the old function has no such point
point deep loop 2 -> call 1 + inner loop 1;
---
map m entry 1: unknown point
=== no point before a kind that differs
point deep loop 1 -> loop 1 + inner loop 2;
---
map m entry 1: unknown point
=== the first part stands at a loop
point deep loop 1 -> loop 1 + inner loop 1;
---
map m entry 1: kind differs
=== the first part stands at an entry
point deep loop 1 -> entry + inner loop 1;
---
map m entry 1: kind differs
=== a middle part stands at an entry
point deep loop 1 -> call 2 + outer entry + middle call 1 + inner loop 1;
---
map m entry 1: kind differs
=== the last part of a loop stands at a call
point deep loop 1 -> call 2 + outer call 1 + middle call 1;
---
map m entry 1: kind differs
=== the last part of a call stands at an entry
point step call 1 -> call 3 + wrap entry;
---
map m entry 1: kind differs
=== a kind before a callee
point deep loop 1 -> call 1 + outer entry + inner loop 1;
---
map m entry 1: kind differs
=== the first part calls another function
point deep loop 1 -> call 1 + outer call 1 + middle call 1 + inner loop 1;
---
map m entry 1: callee differs
=== a middle part calls another function
point deep loop 1 -> call 2 + outer call 1 + inner loop 1;
---
map m entry 1: callee differs
=== the third part calls another function
point deep loop 1 -> call 2 + outer call 1 + middle call 1 + wrap entry;
---
map m entry 1: callee differs
=== the last part does not call the match of what is called
point step call 1 -> call 2 + outer call 1;
---
map m entry 1: callee differs
=== a callee before an expression
point deep loop 1 -> call 1 { nope = 1; } + outer entry;
---
map m entry 1: callee differs
=== the first part has no such slot
point deep loop 1 -> call 1 { b = 1; } + inner loop 1;
---
map m entry 1: bad expression
=== the last part has no such slot
point deep loop 1 -> call 1 + inner loop 1 { q = 1; };
---
map m entry 1: bad expression
=== a middle part has no such slot
point deep loop 1 -> call 2 + outer call 1 { m = 1; } + middle call 1 + inner loop 1;
---
map m entry 1: bad expression
=== an added part reads a new slot
point deep loop 1 -> call 1 + inner loop 1 { x = b; };
---
map m entry 1: bad expression
=== a slot of the last part has another type
point deep loop 1 -> call 1 + inner loop 1 { x = NULL; };
---
map m entry 1: bad expression
=== an expression before a slot twice
point deep loop 1 -> call 1 { q = 1; q = 2; } + inner loop 1 { q = 1; };
---
map m entry 1: bad expression
=== a slot of the first part twice
point deep loop 1 -> call 1 { q = 1; q = 2; } + inner loop 1;
---
map m entry 1: twice
=== a slot of the last part twice
point deep loop 1 -> call 1 + inner loop 1 { b = 1; b = 2; };
---
map m entry 1: twice
=== a slot of a middle part twice
point deep loop 1 -> call 2 + outer call 1 { o = 1; o = 2; } + middle call 1 + inner loop 1;
---
map m entry 1: twice
=== a place twice
point deep loop 1 -> loop 1; point deep loop 1 -> call 1 + inner loop 1;
---
map m entry 2: twice
=== five parts
point deep loop 1 -> call 2 + outer call 1 + middle call 1 + inner call 1 + deep entry;
---
map m at 74: unexpected
=== a part without its function
point deep loop 1 -> call 1 + loop 1;
---
map m at 35: unexpected
=== a part without its point
point deep loop 1 -> call 1 + inner;
---
map m at 35: unexpected
=== nothing behind a plus
point deep loop 1 -> call 1 +;
---
map m at 29: unexpected
=== nothing before a plus
point deep loop 1 -> + inner loop 1;
---
map m at 21: unexpected
=== two signs
point deep loop 1 -> call 1 + + inner loop 1;
---
map m at 30: unexpected
=== an arrow behind a part
point deep loop 1 -> call 1 + inner loop 1 -> loop 1;
---
map m at 43: unexpected
=== two old places
point deep loop 1 + inner loop 1 -> loop 1;
---
map m at 18: unexpected
";
