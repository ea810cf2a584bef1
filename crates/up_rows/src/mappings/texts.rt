//! Texts that are no mapping.

/// What comes of each mapping.
pub const ROWS: &str = r"
=== point without a number
point main loop -> loop 1;
---
map m at 16: unexpected
=== entry without its end
check n
---
map m at 7: unexpected
=== empty entry
check n; ;
---
map m at 9: unexpected
=== no such entry
slot n = 1;
---
map m at 0: unexpected
=== call
check f(n);
---
map m at 7: unexpected
=== cast
check (struct item *) head;
---
map m at 7: unexpected
=== assignment
check n = 1;
---
map m at 8: unexpected
=== element of a numbered slot
check i.2[0];
---
map m at 9: unexpected
=== number above the range
check 2147483648;
---
map m at 6: literal
=== byte of no token
check $;
---
map m at 6: bad byte
=== directive
#define X 1
---
map m at 0: bad byte
=== open comment
check n; /* n
---
map m at 9: unclosed
=== word that is left out
check goto;
---
map m at 6: left out goto
=== word of the language as a name
function add -> while;
---
map m at 16: unexpected
=== none on the left
function none -> add;
---
map m entry 1: unknown function
=== fill without its end
point tick loop 1 -> loop 1 { j = 1 };
---
map m at 36: unexpected
=== field without its struct
field item = 1;
---
map m at 11: unexpected
=== arrow that is none
mutex l => q;
---
map m at 8: unexpected
=== character of two
check 'ab';
---
map m at 6: bad token
=== words of mappings as names
check function + check;
---
map m entry 1: bad expression
";
