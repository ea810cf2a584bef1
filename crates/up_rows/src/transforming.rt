//! What programs are transformed to.

use crate::tool::Upstare;
use row_calls::{RowsDiffer, Shown, differing_sources, judged};

/// What `transform` comes to over each source.
const ROWS: &str = r#"
=== a program without slots
int main(void) { printf("hi\n"); return 3; }
---
int main(void) {
  UP_RESTORE(0);
  UP_AT(0);
  printf("hi\n");
  return 3;
  return 0;
}
status 0
=== structs, globals and mutexes stand in this order
pthread_mutex_t lock;
int a[3];
struct item { int value; struct item *next; };
struct item *head;
int n = 5;
int m = -3;
int zero = 0;
int main(void) { return 0; }
---
struct item { int value; struct item *next; };
int a[3];
struct item *head;
int n = 5;
int m = -3;
int zero;
pthread_mutex_t lock;
int main(void) {
  UP_RESTORE(0);
  UP_AT(0);
  return 0;
  return 0;
}
status 0
=== calls are followed by their mark, and made again behind the body
int f(int a, int b) { return a - b; }
int main(void) { int r; r = f(1, 2) + f(3, 4); f(r, 0); return r; }
---
int f(int a, int b) {
  UP_RESTORE(2);
  UP_AT(0);
  return a - b;
  return 0;
}
int main(void) {
  int r;
  int .1;
  int .2;
  UP_RESTORE(3);
  UP_AT(0);
  .1 = f(1, 2);
  UP_AFTER(1);
  .2 = f(3, 4);
  UP_AFTER(2);
  r = .1 + .2;
  f(r, 0);
  UP_AFTER(4);
  return r;
  return 0;
  UP_REBUILD(1): f(0, 0);
  UP_REBUILD(2): f(0, 0);
  UP_REBUILD(4): f(0, 0);
}
status 0
=== loops are numbered by their ends, and continue goes to its own
int main(void) {
    int i;
    for (i = 0; i < 3; i++) {
        while (1) { if (i == 1) break; continue; }
        if (i == 2) continue;
    }
    return 0;
}
---
int main(void) {
  int i;
  UP_RESTORE(1);
  UP_AT(0);
  i = 0;
  for (;;) {
    if (!(i < 3)) break;
    for (;;) {
      if (!(1)) break;
      if (i == 1) {
        break;
      }
      goto UP_CONT_1;
      UP_CONT_1: ;
      UP_AT(5);
    }
    if (i == 2) {
      goto UP_CONT_2;
    }
    UP_CONT_2: ;
    i = i + 1;
    UP_AT(8);
  }
  return 0;
  return 0;
}
status 0
=== an empty else is none
int n;
int main(void) {
    if (n) n = 1; else n = 2;
    if (n) { } else { }
    if (n) { } else { n = 3; }
    return 0;
}
---
int n;
int main(void) {
  UP_RESTORE(0);
  UP_AT(0);
  if (n) {
    n = 1;
  } else {
    n = 2;
  }
  if (n) {
  }
  if (n) {
  } else {
    n = 3;
  }
  return 0;
  return 0;
}
status 0
=== locks and joins have their mark before them
pthread_mutex_t m;
int n;
void *work(void *a) {
    pthread_mutex_lock(&m);
    n = n + 1;
    pthread_mutex_unlock(&m);
    return a;
}
int main(void) {
    pthread_t t;
    pthread_create(&t, NULL, work, NULL);
    pthread_join(t, NULL);
    return n;
}
---
int n;
pthread_mutex_t m;
void *work(void *a) {
  UP_RESTORE(1);
  UP_AT(0);
  UP_AT(1);
  pthread_mutex_lock(&m);
  n = n + 1;
  pthread_mutex_unlock(&m);
  return a;
  return NULL;
}
int main(void) {
  pthread_t t;
  UP_RESTORE(1);
  UP_AT(0);
  pthread_create(&t, NULL, work, NULL);
  UP_AT(2);
  pthread_join(t, NULL);
  return n;
  return 0;
}
status 0
=== the escapes of a string
int main(void) { printf("a\tb \"c\" \\ d %d %%\n", 7); return 0; }
---
int main(void) {
  UP_RESTORE(0);
  UP_AT(0);
  printf("a\tb \"c\" \\ d %d %%\n", 7);
  return 0;
  return 0;
}
status 0
=== objects, the input, and signs that would touch
struct s { int v; struct s *next; };
int main(void) {
    struct s *p;
    p = malloc(sizeof(struct s));
    p->v = getchar();
    p->next = NULL;
    p->next->v = -(-p->v);
    free(p);
    return 0;
}
---
struct s { int v; struct s *next; };
int main(void) {
  struct s *p;
  int .1;
  UP_RESTORE(2);
  UP_AT(0);
  p = malloc(sizeof(struct s));
  .1 = getchar();
  p->v = .1;
  p->next = NULL;
  p->next->v = - -p->v;
  free(p);
  return 0;
  return 0;
}
status 0
=== a second slot of one name has a number
int main(void) { int i; i = 0; { int i; i = 1; } return i; }
---
int main(void) {
  int i;
  int i.2;
  UP_RESTORE(2);
  UP_AT(0);
  i = 0;
  i.2 = 1;
  return i;
  return 0;
}
status 0
=== a call in a test stands in its loop
int n;
void tick(void) { n += 2; }
int more(void) { return n < 4; }
int main(void) { while (more()) tick(); return 0; }
---
int n;
void tick(void) {
  UP_RESTORE(0);
  UP_AT(0);
  n = n + 2;
  return;
}
int more(void) {
  UP_RESTORE(0);
  UP_AT(0);
  return n < 4;
  return 0;
}
int main(void) {
  int .1;
  UP_RESTORE(1);
  UP_AT(0);
  for (;;) {
    .1 = more();
    UP_AFTER(1);
    if (!(.1)) break;
    tick();
    UP_AFTER(3);
    UP_CONT_1: ;
    UP_AT(4);
  }
  return 0;
  return 0;
  UP_REBUILD(1): more();
  UP_REBUILD(3): tick();
}
status 0
=== every statement of two functions
struct node { int value; struct node *next; };
int table[4];
int limit = -3;
int seen;
pthread_mutex_t guard;
void *waits(void *start) {
    int i;
    pthread_mutex_lock(&guard);
    for (; sum(i, 2) < 3; i = i + 1) {
        while (1) { if (i) break; else continue; }
        continue;
    }
    pthread_mutex_unlock(&guard);
    return NULL;
}
int sum(int a, int b) {
    pthread_t t;
    struct node *p;
    pthread_create(&t, NULL, waits, NULL);
    pthread_join(t, NULL);
    p = malloc(sizeof(struct node));
    p->value = -1;
    table[a] = limit;
    a = getchar();
    printf("a\t\"%d\"\\\n", a);
    waits(NULL);
    if (a) free(p);
    return a;
}
int main(void) { return sum(1, 2); }
---
struct node { int value; struct node *next; };
int table[4];
int limit = -3;
int seen;
pthread_mutex_t guard;
void *waits(void *start) {
  int i;
  int .1;
  UP_RESTORE(3);
  UP_AT(0);
  UP_AT(1);
  pthread_mutex_lock(&guard);
  for (;;) {
    .1 = sum(i, 2);
    UP_AFTER(2);
    if (!(.1 < 3)) break;
    for (;;) {
      if (!(1)) break;
      if (i) {
        break;
      } else {
        goto UP_CONT_1;
      }
      UP_CONT_1: ;
      UP_AT(6);
    }
    goto UP_CONT_2;
    UP_CONT_2: ;
    i = i + 1;
    UP_AT(8);
  }
  pthread_mutex_unlock(&guard);
  return NULL;
  return NULL;
  UP_REBUILD(2): sum(0, 0);
}
int sum(int a, int b) {
  pthread_t t;
  struct node *p;
  UP_RESTORE(4);
  UP_AT(0);
  pthread_create(&t, NULL, waits, NULL);
  UP_AT(2);
  pthread_join(t, NULL);
  p = malloc(sizeof(struct node));
  p->value = -1;
  table[a] = limit;
  a = getchar();
  printf("a\t\"%d\"\\\n", a);
  waits(NULL);
  UP_AFTER(8);
  if (a) {
    free(p);
  }
  return a;
  return 0;
  UP_REBUILD(8): waits(0);
}
int main(void) {
  int .1;
  UP_RESTORE(1);
  UP_AT(0);
  .1 = sum(1, 2);
  UP_AFTER(1);
  return .1;
  return 0;
  UP_REBUILD(1): sum(0, 0);
}
status 0
=== what is refused is not transformed
int main(void) { return x; }
---
err: source a.c at 24: unknown x
status 2
"#;

#[test]
fn programs_are_transformed(rt: HostRuntime) -> Result<(), RowsDiffer> {
    judged(differing_sources(rt.alloc(), &Upstare, "transform a.c", Shown::All, ROWS))
}
