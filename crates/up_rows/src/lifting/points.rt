//! The points of programs.

/// What `points` comes to over each source.
pub const ROWS: &str = r#"
=== a loop
int n; int main(void) { while (n < 4) { n = n + 1; } return 0; }
---
main entry 0
main loop 1 3
status 0
=== a for with a continue
int main(void) {
    int s = 0;
    for (int i = 0; i < 4; i++) { if (i == 2) continue; s += i; }
    return 0;
}
---
main entry 0
main loop 1 7
status 0
=== inner loops end before outer ones
int main(void) { while (1) { while (1) { } } }
---
main entry 0
main loop 1 3
main loop 2 4
status 0
=== locks and joins block
pthread_mutex_t m;
int main(void) {
    pthread_t t;
    pthread_mutex_lock(&m);
    pthread_mutex_unlock(&m);
    pthread_join(t, NULL);
}
---
main entry 0
main block 1 1
main block 2 3
status 0
=== compound assignment: the calls of the left side come first, and once
int a[3];
int i(void) { printf("i"); return 1; }
int f(void) { printf("f"); return 5; }
int main(void) { a[1] = 2; a[i()] += f(); printf(" %d\n", a[1]); return 0; }
---
i entry 0
f entry 0
main entry 0
main call 1 2
main call 2 3
status 0
=== and, or: the right call is made only where the left side lets it
int f(int n) { printf("f%d ", n); return n; }
int main(void) {
    int a = f(0) && f(1);
    int b = f(2) && f(0);
    int c = f(0) || f(3);
    int d = f(4) || f(5);
    printf("%d %d %d %d\n", a, b, c, d);
    return 0;
}
---
f entry 0
main entry 0
main call 1 1
main call 2 4
main call 3 7
main call 4 10
main call 5 13
main call 6 16
main call 7 19
main call 8 22
status 0
=== and without a call on its right stays one expression
int f(void) { printf("f "); return 0; }
int main(void) { int x = f() && 1; printf("%d\n", x); return 0; }
---
f entry 0
main entry 0
main call 1 1
status 0
=== for with a call in its step, which continue reaches
int s(int n) { printf("s%d", n); return n + 1; }
int main(void) {
    for (int i = 0; i < 3; i = s(i)) { if (i == 1) continue; printf("b%d", i); }
    printf("\n");
    return 0;
}
---
s entry 0
main entry 0
main call 1 5
main loop 1 6
status 0
=== while with a call in its test
int n;
int f(void) { n = n + 1; return n < 4; }
int main(void) { while (f()) printf("%d", n); printf("\n"); return 0; }
---
f entry 0
main entry 0
main call 1 1
main loop 1 4
status 0
=== or with a call in the test of a while
int n;
int f(void) { n = n + 1; return 0; }
int main(void) {
    int k = 0;
    while (k < 2 || f()) { k++; printf("%d", k); }
    printf(" %d\n", n);
    return 0;
}
---
f entry 0
main entry 0
main call 1 4
main loop 1 9
status 0
=== a slot takes the result of a call itself, also in an initialiser
int f(int n) { printf("%d", n); return n * 2; }
int main(void) { int a = f(1); int b = f(a) + f(3); printf(" %d %d\n", a, b); return 0; }
---
f entry 0
main entry 0
main call 1 1
main call 2 2
main call 3 3
status 0
=== nested calls from left to right, arguments first
int f(int n) { printf("f%d ", n); return n; }
int g(int a, int b) { printf("g%d%d ", a, b); return a + b; }
int main(void) { int x = g(f(1), g(f(2), f(3))); printf("%d\n", x); return 0; }
---
f entry 0
g entry 0
main entry 0
main call 1 1
main call 2 2
main call 3 3
main call 4 4
main call 5 5
status 0
=== calls among the arguments of printf are made before it prints
int f(int n) { printf("<%d>", n); return n; }
int main(void) { printf("%d %d\n", f(1), f(2)); return 0; }
---
f entry 0
main entry 0
main call 1 1
main call 2 2
status 0
=== calls in a return and in the test of an if
int f(int n) { if (n < 1) return 0; return n + f(n - 1); }
int main(void) { if (f(3) == 6) printf("six\n"); else printf("no\n"); return 0; }
---
f entry 0
f call 1 3
main entry 0
main call 1 1
status 0
=== malloc under a cast goes into the local itself
struct s { int v; };
int main(void) {
    struct s *p = (struct s *)malloc(sizeof(struct s));
    p->v = 4;
    p->v += p->v;
    printf("%d\n", p->v);
    free(p);
    return 0;
}
---
main entry 0
status 0
"#;
