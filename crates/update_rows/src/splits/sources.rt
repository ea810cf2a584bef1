//! Programs whose functions are split.

/// A loop that counts.
pub const COUNT: &str = r#"
int n; int main(void) { while (n < 4) { n = n + 1; printf("old %d\n", n); } return 0; }
"#;

/// The loop is a function of its own.
pub const COUNT_APART: &str = r#"
int n;
int go(int k) { while (n < k) { n = n + 1; printf("new %d\n", n); } return n; }
int main(void) { int r; r = go(4); return r; }
"#;

/// A function that loops with a parameter and a local.
pub const NEST: &str = r#"
int n;
void f(int x) { int y; y = 50; while (1) { } }
int main(void) { f(3); return 0; }
"#;

/// The loop is three calls away.
pub const NESTED: &str = r#"
int n;
void c(int x) { int k; while (n < 2) { n = n + 1; } printf("c %d %d\n", x, n); }
void b(int x) { c(1); printf("b %d\n", x); }
void a(int x) { b(2); printf("a %d\n", x); }
void f(int x) { int y; a(3); printf("f %d %d\n", x, y); }
int main(void) { f(3); return 0; }
"#;

/// A slot of the third part traps before one of the fourth.
pub const TRAPPED_THIRD: &str = r"
point f loop 1 -> call 1 + a call 1 + b call 1 { x = 1 / n; } + c loop 1 { k = 1 % n; };
";

/// The last slot of the last part traps.
pub const TRAPPED_FOURTH: &str = r"
point f loop 1 -> call 1 + a call 1 + b call 1 + c loop 1 { k = 1 % n; };
";

/// A thread that is waited for.
pub const WAIT: &str = r#"
int n;
void *work(void *p) { while (n < 5) { n = n + 1; } return NULL; }
int main(void) {
    pthread_t t;
    pthread_create(&t, NULL, work, NULL);
    pthread_join(t, NULL);
    printf("old %d\n", n);
    return 0;
}
"#;

/// The wait is a function of its own.
pub const WAIT_APART: &str = r#"
int n;
void *work(void *p) { int w; while (n < 5) { n = n + 1; } return NULL; }
void finish(pthread_t of) { pthread_join(of, NULL); }
int main(void) {
    pthread_t t;
    pthread_create(&t, NULL, work, NULL);
    finish(t);
    printf("new %d\n", n);
    return 0;
}
"#;

/// A recursion of as many frames as there may be.
pub const DEEP: &str = r#"
int down(int k) { int r; if (k == 0) { return 0; } r = down(k - 1); return r + 1; }
int main(void) { printf("%d\n", down(9998)); return 0; }
"#;

/// Each call of `down` goes by way of `mid`.
pub const MID: &str = r#"
int mid(int k);
int down(int k) { int r; if (k == 0) { return 0; } r = mid(k); return r + 1; }
int mid(int k) { int r; r = down(k - 1); return r; }
int main(void) { printf("%d\n", down(9998)); return 0; }
"#;

pub const DEEPER: &str = r#"
int down(int k) { int r; if (k == 0) { return 0; } r = down(k - 1); return r + 1; }
int main(void) { printf("%d\n", down(4998)); return 0; }
"#;

pub const MIDDLE: &str = r#"
int mid(int k);
int down(int k) { int r; if (k == 0) { return 0; } r = mid(k); return r + 1; }
int mid(int k) { int r; r = down(k - 1); return r; }
int main(void) { printf("%d\n", down(4998)); return 0; }
"#;

pub const DEEPEST: &str = r#"
int down(int k) { int r; if (k == 0) { return 0; } r = down(k - 1); return r + 1; }
int main(void) { printf("%d\n", down(4999)); return 0; }
"#;

pub const MIDMOST: &str = r#"
int mid(int k);
int down(int k) { int r; if (k == 0) { return 0; } r = mid(k); return r + 1; }
int mid(int k) { int r; r = down(k - 1); return r; }
int main(void) { printf("%d\n", down(4999)); return 0; }
"#;

pub const DEEP_MAP: &str = r"
point down entry -> entry;
point down call 1 -> call 1 + mid call 1;
";
