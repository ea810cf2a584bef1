//! Sources that show every part of a file and every statement.

/// A queue of jobs.
pub const QUEUE: &str = r#"
#include <stdio.h>
#include <stdlib.h>
#include <pthread.h>
#define JOBS 20
#define WORKERS 3
struct job { int id; int cost; struct job *next; };
struct job *queue; /* newest first */
int done;
int total;
pthread_t pool[WORKERS];
pthread_mutex_t queue_lock = PTHREAD_MUTEX_INITIALIZER;
pthread_mutex_t total_lock = PTHREAD_MUTEX_INITIALIZER;

void push(int id, int cost) {
    struct job *j = malloc(sizeof(struct job));
    j->id = id;
    j->cost = cost;
    pthread_mutex_lock(&queue_lock);
    j->next = queue;
    queue = j;
    pthread_mutex_unlock(&queue_lock);
}
struct job *pop(void) {
    struct job *j;
    pthread_mutex_lock(&queue_lock);
    j = queue;
    if (j != NULL) queue = j->next;
    pthread_mutex_unlock(&queue_lock);
    return j;
}
int work(struct job *j) {
    int sum = 0;
    for (int i = 0; i < j->cost; i++) sum += j->id;
    return sum;
}
void *worker(void *arg) {
    struct job *j = pop();
    while (j != NULL) {
        int r = work(j);
        pthread_mutex_lock(&total_lock);
        total += r;
        done++;
        pthread_mutex_unlock(&total_lock);
        free(j);
        j = pop();
    }
    return NULL;
}
int main(void) {
    for (int i = 1; i <= JOBS; i++) push(i, 10);
    for (int i = 0; i < WORKERS; i++) pthread_create(&pool[i], NULL, worker, NULL);
    for (int i = 0; i < WORKERS; i++) pthread_join(pool[i], NULL);
    printf("jobs %d total %d\n", done, total);
    return 0;
}
"#;

/// Every form of a part of a file.
pub const PARTS: &str = r"
# include <stdio.h> // blanks may stand between
#define LEAST -0x1 /* and behind */
static int first = LEAST;
static struct s *second = NULL;
pthread_t third[0x10];
int fourth = EOF;
int fifth = 'a';
int sixth = -010;
void *seventh;
static pthread_mutex_t lock;
int next(void);
static void step(pthread_t t, void *rest, struct s *all);
static struct s *last() { return NULL; }
struct s { struct s *next; void *p; pthread_t t; };
struct empty { };
";

/// Every form of a statement.
pub const STATEMENTS: &str = r#"
void f(void) {
    int a, b = 1, c;
    void *p = (void *)arg, *q;
    pthread_t t;
    struct s *r = (struct s *)p->next;
    (r)->next->next = malloc(sizeof(struct s));
    for (;;) { if (!a) break; else continue; }
    for (a = ~-1; ; --a) ;
    for (f(); a % 3 >= b; ++r->next) { int b; }
    while (a) if (b) if (c) ; else ; else ;
    f()->next = NULL;
    5->next = 'x';
    a[b] <<= 1;
    getchar();
    g(getchar(), a[b]);
    printf("%d\t\"%d\"\n", a, b);
    printf("none");
    pthread_create(&r->next, NULL, f, (p));
    pthread_join(t, NULL);
    return;
}
"#;
