//! Each trap of an expression of a mapping.

/// Its name, the mapping, and `done` or the reason, as the history and as the report have it.
pub const ROWS: &str = r"
=== a quotient by 0
check 1 / zero;
---
4 1 1: check 1 divide
=== a remainder by 0
check 1 % zero;
---
4 1 1: check 1 divide
=== the quotient that has no int
check (low - 1) / -1;
---
4 1 1: check 1 divide
=== its remainder
check (low - 1) % -1;
---
4 1 1: check 1 divide
=== a quotient toward 0
check 5 / -2 == -2;
---
done
=== a remainder with the sign of the left
check -5 % 3 == -2;
---
done
=== a shift by 32
check 1 << 32;
---
4 1 2: check 1 shift
=== a shift by less than 0
check 1 >> zero - 1;
---
4 1 2: check 1 shift
=== a shift by 31
check 1 << 31;
---
done
=== a shift to the right keeps the sign
check -1 >> 31 == -1;
---
done
=== a difference that wraps
check low - 2 > 0;
---
done
=== a field of NULL
check nil->value;
---
4 1 3: check 1 null
=== a field of a field of a field
check head->next->next->value == 5;
---
done
=== a field of a freed object
check gone->value;
---
4 1 4: check 1 freed
=== a field of a freed coin
check coin->side;
---
4 1 4: check 1 freed
=== a field of another struct
check wrong->size;
---
4 1 5: check 1 struct
=== an index at the length
check a[3];
---
4 1 6: check 1 bounds
=== an index below 0
check a[zero - 1];
---
4 1 6: check 1 bounds
=== the last index
check a[2] == 0;
---
done
=== the left operand first
check nil->value + a[9];
---
4 1 3: check 1 null
=== operands before the quotient
check a[9] / zero;
---
4 1 6: check 1 bounds
=== the index first
check a[nil->value];
---
4 1 3: check 1 null
=== the left of and
check 1 / zero && zero;
---
4 1 1: check 1 divide
=== the right of and isn't reached
check zero && 1 / zero;
---
4 1 0: check 1 is 0
=== the right of and is reached
check n && 1 / zero;
---
4 1 1: check 1 divide
=== the right of or isn't reached
check n || 1 / zero;
---
done
=== the right of or is reached
check zero || 1 / zero;
---
4 1 1: check 1 divide
=== below a prefix operator
check !(1 / zero);
---
4 1 1: check 1 divide
=== a global: shift
init total = 1 << low;
---
5 0 2: global total shift
=== a global: null
init last = nil->next;
---
5 3 3: global last null
=== a global: struct
init total = wrong->size;
---
5 0 5: global total struct
=== a global: bounds
init extra = a[4];
---
5 4 6: global extra bounds
=== a field: shift
field item.weight = 1 << value * 10;
---
6 1 1 2: field 1 item.weight shift
=== a field: null
field item.weight = next->value + nil->value;
---
6 1 1 3: field 1 item.weight null
=== a field: freed
field bag.size = gone->value;
---
6 3 0 4: field 3 bag.size freed
=== a field: struct
field bag.sum = size + wrong->size;
---
6 3 1 5: field 3 bag.sum struct
=== a field: bounds
field item.rank = a[value];
---
6 1 3 6: field 1 item.rank bounds
=== a slot: divide
point f loop 1 -> loop 1 { r = x % (x - y); };
---
7 0 1 2 1: slot thread 0 frame 1 r divide
=== a slot: shift
point f loop 1 -> loop 1 { r = 1 << x * x; };
---
7 0 1 2 2: slot thread 0 frame 1 r shift
=== a slot: null
point w loop 1 -> loop 1 { i = nil->value; };
---
7 1 0 1 3: slot thread 1 frame 0 i null
=== a slot: freed
point w loop 1 -> loop 1 { i = gone->value; };
---
7 1 0 1 4: slot thread 1 frame 0 i freed
=== a slot: struct
point main call 3 -> call 3 { c = wrong->size; };
---
7 0 0 0 5: slot thread 0 frame 0 c struct
=== a slot: bounds
point f loop 1 -> loop 1 { x = a[y]; };
---
7 0 1 0 6: slot thread 0 frame 1 x bounds
";
