//! The queue, its new program, and the mapping between them.

/// The old program: the sum is that of the numbers of the jobs.
pub const QUEUE: &str = r#"
#include <stdio.h>
#include <stdlib.h>
#include <pthread.h>
#define JOBS 20
#define WORKERS 3
struct job { int id; int cost; struct job *next; };
struct job *queue; /* newest first */
int done;
int total;
pthread_t pool[WORKERS];
pthread_mutex_t queue_lock = PTHREAD_MUTEX_INITIALIZER;
pthread_mutex_t total_lock = PTHREAD_MUTEX_INITIALIZER;

void push(int id, int cost) {
    struct job *j = malloc(sizeof(struct job));
    j->id = id;
    j->cost = cost;
    pthread_mutex_lock(&queue_lock);
    j->next = queue;
    queue = j;
    pthread_mutex_unlock(&queue_lock);
}
struct job *pop(void) {
    struct job *j;
    pthread_mutex_lock(&queue_lock);
    j = queue;
    if (j != NULL) queue = j->next;
    pthread_mutex_unlock(&queue_lock);
    return j;
}
int work(struct job *j) {
    int sum = 0;
    for (int i = 0; i < j->cost; i++) sum += j->id;
    return sum;
}
void *worker(void *arg) {
    struct job *j = pop();
    while (j != NULL) {
        int r = work(j);
        pthread_mutex_lock(&total_lock);
        total += r;
        done++;
        pthread_mutex_unlock(&total_lock);
        free(j);
        j = pop();
    }
    return NULL;
}
int main(void) {
    for (int i = 1; i <= JOBS; i++) push(i, 10);
    for (int i = 0; i < WORKERS; i++) pthread_create(&pool[i], NULL, worker, NULL);
    for (int i = 0; i < WORKERS; i++) pthread_join(pool[i], NULL);
    printf("jobs %d total %d\n", done, total);
    return 0;
}
"#;

/// The new program: the sum is that of the weights.
pub const NEW_QUEUE: &str = r#"
#include <stdio.h>
#include <stdlib.h>
#include <pthread.h>
#define JOBS 20
#define WORKERS 3
struct job { int id; int cost; int weight; struct job *next; };
struct job *queue; /* newest first */
int done;
int total;
pthread_t pool[WORKERS];
pthread_mutex_t queue_lock = PTHREAD_MUTEX_INITIALIZER;
pthread_mutex_t total_lock = PTHREAD_MUTEX_INITIALIZER;

void push(int id, int cost) {
    struct job *j = malloc(sizeof(struct job));
    j->id = id;
    j->cost = cost;
    j->weight = id;
    pthread_mutex_lock(&queue_lock);
    j->next = queue;
    queue = j;
    pthread_mutex_unlock(&queue_lock);
}
struct job *pop(void) {
    struct job *j;
    pthread_mutex_lock(&queue_lock);
    j = queue;
    if (j != NULL) queue = j->next;
    pthread_mutex_unlock(&queue_lock);
    return j;
}
int work(struct job *j) {
    int sum = 0;
    for (int i = 0; i < j->cost; i++) sum += j->weight;
    return sum;
}
void *worker(void *arg) {
    struct job *j = pop();
    while (j != NULL) {
        int r = work(j);
        pthread_mutex_lock(&total_lock);
        total += r;
        done++;
        pthread_mutex_unlock(&total_lock);
        free(j);
        j = pop();
    }
    return NULL;
}
int main(void) {
    for (int i = 1; i <= JOBS; i++) push(i, 10);
    for (int i = 0; i < WORKERS; i++) pthread_create(&pool[i], NULL, worker, NULL);
    for (int i = 0; i < WORKERS; i++) pthread_join(pool[i], NULL);
    printf("v2 jobs %d total %d\n", done, total);
    return 0;
}
"#;

/// Each job gets a weight that starts from its id.
pub const WEIGHTS: &str = r"
field job.weight = id;
point push entry -> entry;
point push block 1 -> block 1;
point work entry -> entry;
point work loop 1 -> loop 1;
point main entry -> entry;
point main loop 1 -> loop 1;
point main loop 2 -> loop 2;
point main loop 3 -> loop 3;
point main call 1 -> call 1;
point main block 1 -> block 1;
";
