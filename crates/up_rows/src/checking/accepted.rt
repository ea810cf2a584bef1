//! Programs that are well typed.

/// What `check` answers to each source.
pub const ROWS: &str = r#"
=== least
int main(void) { }
---
ok functions 1 structs 0 globals 0 mutexes 0
=== counter
int n;
int main(void) { while (n < 4) { n = n + 1; printf("old %d%%", n); } return 0; }
---
ok functions 1 structs 0 globals 1 mutexes 0
=== prototypes do not count
int f(int a);
int f(int b) { return b; }
int f(int c);
int main(void) { return f(1); }
---
ok functions 2 structs 0 globals 0 mutexes 0
=== prototype of main
int main(void); int main(void) { return 0; }
---
ok functions 1 structs 0 globals 0 mutexes 0
=== counts
#define N 3
struct a { int x; };
struct b { int x; };
int g;
int h[N];
pthread_mutex_t m;
pthread_mutex_t k;
pthread_t t;
static int f(void) { return 0; }
int main(void) { return f(); }
---
ok functions 2 structs 2 globals 3 mutexes 2
=== used before declared
int main(void) { struct s *p; p = q; g = D; f(); pthread_mutex_lock(&m); return g; }
void f(void) { }
pthread_mutex_t m;
int g;
struct s *q;
struct s { int x; };
#define D 1
---
ok functions 2 structs 1 globals 2 mutexes 1
=== thread
void *w(void *a) { return a; }
int main(void) {
    pthread_t t;
    pthread_create(&t, NULL, w, NULL);
    pthread_join(t, NULL);
    return 0;
}
---
ok functions 2 structs 0 globals 0 mutexes 0
=== struct names apart
int s;
struct s { struct s *s; };
int main(void) { struct s *p = NULL; s = 1; return p->s == NULL; }
---
ok functions 1 structs 1 globals 1 mutexes 0
=== field as any name
struct s { int main; int f; };
void f(void) { }
int main(void) { struct s *p = malloc(sizeof(struct s)); p->main = p->f; return 0; }
---
ok functions 2 structs 1 globals 0 mutexes 0
=== local hides global
void *x; int main(void) { int x = 1; { void *x = NULL; x = x; } return x; }
---
ok functions 1 structs 0 globals 1 mutexes 0
=== local hides function
int f(void) { return 1; } int main(void) { int a = f(); int f = a; return f; }
---
ok functions 2 structs 0 globals 0 mutexes 0
=== local reads itself
int main(void) { int i = i; return i; }
---
ok functions 1 structs 0 globals 0 mutexes 0
=== siblings
int main(void) {
    { int i; }
    { void *i; }
    for (int i = 0; i < 1; i++) { void *i = NULL; }
    for (int i = 0; ; ) break;
    return 0;
}
---
ok functions 1 structs 0 globals 0 mutexes 0
=== parameter hidden in block
int f(int a) { { void *a = NULL; if (a) return 1; } return a; }
int main(void) { return f(2); }
---
ok functions 2 structs 0 globals 0 mutexes 0
=== pointers
struct s { int x; };
int main(void) {
    struct s *p = malloc(sizeof(struct s));
    void *v = p;
    p = v;
    p = 0;
    p = NULL;
    v = 0;
    return p == v || p == 0 || 0 == p || p != NULL || NULL == 0 || !p && v;
}
---
ok functions 1 structs 1 globals 0 mutexes 0
=== define of zero
#define Z 0
struct s { int x; };
struct s *g = Z;
int main(void) { struct s *p = Z; p = Z; free(Z); return p == Z; }
---
ok functions 1 structs 1 globals 1 mutexes 0
=== casts
struct s { int x; };
struct t { int y; };
int main(void) {
    struct s *p = (struct s *)NULL;
    struct t *q = (struct t *)p;
    void *v = (void *)q;
    p = (struct s *)(void *)malloc(sizeof(struct t));
    free((void *)p);
    return v == NULL;
}
---
ok functions 1 structs 2 globals 0 mutexes 0
=== initialisers
#define M -1
int a = -5;
int b = M;
int c = EOF;
int d = 'x';
void *e = NULL;
void *f = 0;
pthread_t t;
int main(void) { return a; }
---
ok functions 1 structs 0 globals 7 mutexes 0
=== void calls
void v(void) { return; } int main(void) { v(); for (v(); ; v()) break; return 0; }
---
ok functions 2 structs 0 globals 0 mutexes 0
=== pthread calls are ints
pthread_mutex_t m;
void *w(void *a) { return NULL; }
int main(void) {
    pthread_t t;
    int r = pthread_create(&t, NULL, w, NULL) + pthread_join(t, NULL);
    if (pthread_mutex_lock(&m)) return 1;
    return r + pthread_mutex_unlock(&m);
}
---
ok functions 2 structs 0 globals 0 mutexes 1
=== calls as statements
int f(void) { return 1; }
int main(void) { f(); getchar(); malloc(sizeof(struct s)); return 0; }
struct s { int x; };
---
ok functions 2 structs 1 globals 0 mutexes 0
=== array limits
int a[1]; int b[65536]; int main(void) { return 0; }
---
ok functions 1 structs 0 globals 2 mutexes 0
=== recursion
int f(int k) { if (k == 0) return 0; return f(k - 1); }
int main(void) { return f(3); }
---
ok functions 2 structs 0 globals 0 mutexes 0
=== break in nested
int main(void) {
    while (1) { if (1) { break; } else continue; }
    for (;;) { { break; } }
    return 0;
}
---
ok functions 1 structs 0 globals 0 mutexes 0
=== no final return
int f(void) { }
struct s { int x; };
struct s *g(void) { }
int main(void) { if (g() == NULL) return f(); }
---
ok functions 3 structs 1 globals 0 mutexes 0
=== args fit
struct s { int x; };
int f(int a, void *b, struct s *c, pthread_t d) { return a; }
int main(void) {
    pthread_t t;
    struct s *p = NULL;
    f(1, p, NULL, t);
    f(p == 0, 0, 0, t);
    f(getchar(), NULL, p, t);
    return 0;
}
---
ok functions 2 structs 1 globals 0 mutexes 0
=== print
int main(void) { printf("%d%%%d", 1, EOF); printf("%%d"); printf(""); return 0; }
---
ok functions 1 structs 0 globals 0 mutexes 0
=== main as field and local
int main(void) { int main = 1; return main; }
---
ok functions 1 structs 0 globals 0 mutexes 0
"#;
