//! The order of calls and of what stands beside them, as it is printed.

/// What each source prints, and the status.
pub const ROWS: &str = r#"
=== compound assignment: the calls of the left side come first, and once
int a[3];
int i(void) { printf("i"); return 1; }
int f(void) { printf("f"); return 5; }
int main(void) { a[1] = 2; a[i()] += f(); printf(" %d\n", a[1]); return 0; }
---
if 7
status 0
=== compound assignment: the left side is read after the calls of the right side
int x;
int f(void) { x = 10; return 1; }
int main(void) { x = 1; x += f(); printf("%d\n", x); return 0; }
---
11
status 0
=== and, or: the right call is made only where the left side lets it
int f(int n) { printf("f%d ", n); return n; }
int main(void) {
    int a = f(0) && f(1);
    int b = f(2) && f(0);
    int c = f(0) || f(3);
    int d = f(4) || f(5);
    printf("%d %d %d %d\n", a, b, c, d);
    return 0;
}
---
f0 f2 f0 f0 f3 f4 0 0 1 1
status 0
=== and without a call on its right stays one expression
int f(void) { printf("f "); return 0; }
int main(void) { int x = f() && 1; printf("%d\n", x); return 0; }
---
f 0
status 0
=== for with a call in its step, which continue reaches
int s(int n) { printf("s%d", n); return n + 1; }
int main(void) {
    for (int i = 0; i < 3; i = s(i)) { if (i == 1) continue; printf("b%d", i); }
    printf("\n");
    return 0;
}
---
b0s0s1b2s2
status 0
=== while with a call in its test
int n;
int f(void) { n = n + 1; return n < 4; }
int main(void) { while (f()) printf("%d", n); printf("\n"); return 0; }
---
123
status 0
=== or with a call in the test of a while
int n;
int f(void) { n = n + 1; return 0; }
int main(void) {
    int k = 0;
    while (k < 2 || f()) { k++; printf("%d", k); }
    printf(" %d\n", n);
    return 0;
}
---
12 1
status 0
=== a local's initialiser reads the local itself
int x = 7; int main(void) { int x = x; printf("%d\n", x); return 0; }
---
0
status 0
=== a slot takes the result of a call itself, also in an initialiser
int f(int n) { printf("%d", n); return n * 2; }
int main(void) { int a = f(1); int b = f(a) + f(3); printf(" %d %d\n", a, b); return 0; }
---
123 2 10
status 0
=== nested calls from left to right, arguments first
int f(int n) { printf("f%d ", n); return n; }
int g(int a, int b) { printf("g%d%d ", a, b); return a + b; }
int main(void) { int x = g(f(1), g(f(2), f(3))); printf("%d\n", x); return 0; }
---
f1 f2 f3 g23 g15 6
status 0
=== calls among the arguments of printf are made before it prints
int f(int n) { printf("<%d>", n); return n; }
int main(void) { printf("%d %d\n", f(1), f(2)); return 0; }
---
<1><2>1 2
status 0
=== calls in a return and in the test of an if
int f(int n) { if (n < 1) return 0; return n + f(n - 1); }
int main(void) { if (f(3) == 6) printf("six\n"); else printf("no\n"); return 0; }
---
six
status 0
=== malloc under a cast goes into the local itself
struct s { int v; };
int main(void) {
    struct s *p = (struct s *)malloc(sizeof(struct s));
    p->v = 4;
    p->v += p->v;
    printf("%d\n", p->v);
    free(p);
    return 0;
}
---
8
status 0
=== getchar into a local, at the end of the input
int main(void) { int c = getchar(); printf("%d\n", c); return c == EOF; }
---
-1
status 0
"#;
