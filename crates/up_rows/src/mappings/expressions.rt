//! Expressions.

/// What comes of each mapping.
pub const ROWS: &str = r"
=== two minus signs
check -(-n) >= 0;
---
check - -n >= 0;
=== minus a minus
check n - -n;
---
same
=== minus of a sum
check -(n + 1);
---
same
=== parentheses that are not needed
check (n) + ((1) * 2);
---
check n + 1 * 2;
=== sum below a product
check (n + 1) * 2;
---
same
=== right operand of equal strength
check n - (1 - 2);
---
same
=== left operand of equal strength
check (n - 1) - 2;
---
check n - 1 - 2;
=== shift of a sum
check n << (1 + 2);
---
check n << 1 + 2;
=== not of a comparison
check !(n == 1);
---
same
=== not of a name
check !(n) == 1;
---
check !n == 1;
=== bit operators
check (n & 1) == (n ^ 2);
---
same
=== and within or
check (n && 1) || (k && n);
---
check n && 1 || k && n;
=== or within and
check (n || 1) && ~k;
---
same
=== without blanks
check n<3&&k%2!=1;
---
check n < 3 && k % 2 != 1;
=== end of input
check n == EOF;
---
check n == -1;
=== character
check n == 'a';
---
check n == 97;
=== hexadecimal number
check n == 0x1F;
---
check n == 31;
=== null in a comparison
check head != NULL;
---
same
=== literal 0 beside a pointer
check 0 == head;
---
check NULL == head;
=== literal 0 beside a number
check n != 0;
---
same
=== pointer as a condition
check !head && n;
---
same
=== order of pointers
check head < head;
---
map m entry 1: bad expression
=== minus of a pointer
check -head == head;
---
map m entry 1: bad expression
=== pointer beside a number
check head == n;
---
map m entry 1: bad expression
=== threads are not compared
check t == t;
---
map m entry 1: bad expression
=== field of a number
check n->value;
---
map m entry 1: bad expression
=== field that is not there
check head->weight;
---
map m entry 1: bad expression
=== fields of fields
check head->next->next->value;
---
same
=== element by an expression
check a[(n + 1) % 3] > a[k];
---
same
=== element by a pointer
check a[head];
---
map m entry 1: bad expression
=== element of a scalar
check n[1];
---
map m entry 1: bad expression
=== array without an index
check a;
---
map m entry 1: bad expression
";
