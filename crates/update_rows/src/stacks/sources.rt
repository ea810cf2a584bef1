//! Programs with calls.

/// A chain of calls, the innermost of which stands in a loop.
pub const CHAIN: &str = r#"
int n;
int c(int x) { while (1) { n = n + 1; printf("c %d\n", n); } return x; }
int b(int x) { int r; r = c(x + 1); return r + 10; }
int a(int x) { int r; r = b(x + 1); return r + 100; }
int main(void) { printf("%d\n", a(1)); return 0; }
"#;

pub const NEW_CHAIN: &str = r#"
int n;
int c(int x) { int w; while (n < 3) { n = n + 1; printf("C %d\n", n); } return x + w; }
int b(int x) { int r; int w; r = c(x + 1); return r + w; }
int a(int x) { int w; int r; r = b(x + 1); return r + w; }
int main(void) { printf("%d\n", a(1)); return 0; }
"#;

pub const ALL_POINTS: &str = r"
point c loop 1 -> loop 1 { w = n * 10; };
point b call 1 -> call 1 { w = x * 1000; };
point a call 1 -> call 1 { w = x * 100; };
";

/// Nothing is declared for new slots.
pub const NO_FILLS: &str = r"
point c loop 1 -> loop 1;
point b call 1 -> call 1;
point a call 1 -> call 1;
";

/// The argument can be evaluated once alone.
pub const ONCE: &str = r#"
int z = 1;
int n;
int f(int q) { z = 0; while (n < 2) { n = n + 1; } return q; }
int main(void) { printf("%d\n", f(10 / z)); return 0; }
"#;

pub const ONE_MORE: &str = r#"
int z = 1;
int n;
int f(int q) { z = 0; while (n < 2) { n = n + 1; } return q + 1; }
int main(void) { printf("%d\n", f(10 / z)); return 0; }
"#;

/// Two loops over names that are declared twice.
pub const NAMES: &str = r#"
int main(void) {
    int total = 0;
    for (int i = 0; i < 2; i++) { total += i; }
    for (int i = 0; i < 3; i++) { total += 10; }
    printf("old %d\n", total);
    return 0;
}
"#;

/// The second `i` became `k`, and `sum` is a name of its own.
pub const OTHER_NAMES: &str = r#"
int main(void) {
    int sum = 7;
    for (int i = 0; i < 2; i++) { sum += i; }
    for (int k = 0; k < 3; k++) { sum += 100 + i_of(k); }
    printf("new %d\n", sum);
    return 0;
}
int i_of(int k) { return k; }
"#;

/// The values of calls stand in temporaries while later ones are made.
pub const TWO_CALLS: &str = r#"
int n;
int f(int x) { n = n + 1; return x; }
int main(void) { printf("%d %d\n", f(1), f(2)); return 0; }
"#;

pub const TWO_CALLS_NEW: &str = r#"
int n;
int f(int x) { n = n + 1; return x; }
int main(void) { printf("new %d %d\n", f(1), f(2)); return 0; }
"#;

/// Each frame of a recursion is mapped by its own slots.
pub const TREE: &str = r#"
int n;
int sum(int k) { int r; if (k == 0) { return 0; } r = sum(k - 1); return r + k; }
int main(void) { int s; s = sum(3); printf("old %d\n", s); return 0; }
"#;

pub const NEW_TREE: &str = r#"
int n;
int total(int k) { int w; int r; if (k == 0) { return 0; } r = total(k - 1); return r + k + w; }
int main(void) { int s; s = total(3); printf("new %d\n", s); return 0; }
"#;

/// A function that is called from a loop, and one that the new program has under another name.
pub const STEPS: &str = r#"
int n;
void step(int by) { int i; while (i < by) { i = i + 1; n = n + 1; } }
int main(void) { while (n < 6) { step(3); } printf("old %d\n", n); return 0; }
"#;

pub const NEW_STEPS: &str = r#"
int n;
int twice(int x) { return x + x; }
void advance(int by) { int i; while (i < by) { i = i + 1; n = n + 1; } }
int main(void) {
    while (n < 6) { advance(3); }
    printf("new %d %d\n", n, twice(n));
    return 0;
}
"#;

pub const DOWN: &str = r#"
int down(int k) { int r; if (k == 0) { return 0; } r = down(k - 1); return r + 1; }
int main(void) { printf("%d\n", down(9998)); return 0; }
"#;

pub const DOWN_NEW: &str = r#"
int down(int k) { int r; if (k == 0) { return 0; } r = down(k - 1); return r + 2; }
int main(void) { printf("%d\n", down(9998)); return 0; }
"#;
