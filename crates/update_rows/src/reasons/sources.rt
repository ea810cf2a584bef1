//! A program with objects of each kind, and its new one.

/// When the update comes, the main thread stands in the loop of `f`, which `main` called with 7
/// and 7, and thread 1 in the loop of `w`. Thread 0 holds `m`, thread 1 holds `l`, and `k` is
/// free. Objects 1, 2 and 4 are items, of which 2 is freed, 3 is a bag, and 5 a coin that is
/// freed. `wrong` points to object 1, and `nil` to nothing.
pub const OLD: &str = r#"
struct item { int value; struct item *next; };
struct bag { int size; };
struct coin { int side; };
int n;
int zero;
int low = -2147483647;
int a[3];
struct item *head;
struct item *gone;
struct item *nil;
struct bag *bag;
struct bag *wrong;
struct coin *coin;
void *any;
pthread_t t;
pthread_mutex_t m;
pthread_mutex_t l;
pthread_mutex_t k;
void fill(void) {
    head = malloc(sizeof(struct item)); head->value = 5;
    gone = malloc(sizeof(struct item));
    bag = malloc(sizeof(struct bag)); bag->size = 3;
    head->next = malloc(sizeof(struct item)); head->next->next = head;
    coin = malloc(sizeof(struct coin)); free(coin);
    any = head; wrong = any;
    free(gone);
    pthread_mutex_lock(&m);
}
void hold(void) { pthread_mutex_lock(&l); }
void *w(void *p) { int i; hold(); while (n < 9) { i = i + 1; } return NULL; }
void begin(void) { pthread_create(&t, NULL, w, NULL); }
void finish(void) { pthread_join(t, NULL); printf("old %d\n", n); }
int f(int x, int y) { int r; while (n < 9) { n = n + 1; } r = x - y; return r; }
int main(void) { int c; fill(); begin(); c = f(7, 7); finish(); return c; }
"#;

/// The code is as it was but for `fill`, `hold`, `begin` and `finish`, which have no frames when
/// the update comes.
pub const NEW: &str = r#"
struct item { int value; int weight; struct item *next; int rank; };
struct bag { int size; int sum; };
struct box { int size; };
struct coin { int side; };
int total;
int n;
int zero;
struct item *last;
int extra;
pthread_t t;
pthread_mutex_t m;
pthread_mutex_t l;
pthread_mutex_t k;
void fill(void) { }
void hold(void) { }
void *w(void *p) { int i; hold(); while (n < 9) { i = i + 1; } return NULL; }
void begin(void) { }
void finish(void) { pthread_join(t, NULL); printf("new %d\n", n); }
int f(int x, int y) { int r; while (n < 9) { n = n + 1; } r = x - y; return r; }
int main(void) { int c; fill(); begin(); c = f(7, 7); finish(); return c; }
"#;
