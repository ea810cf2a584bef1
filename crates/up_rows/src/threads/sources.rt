//! Programs of several threads.

/// The main thread prints `m` and the one that it starts prints `w`.
pub const PAIR: &str = r#"
void *w(void *a) { printf("w\n"); return NULL; }
int main(void) {
    pthread_t t;
    pthread_create(&t, NULL, w, NULL);
    printf("m\n");
    pthread_join(t, NULL);
    return 0;
}
"#;

/// Two threads that lock two mutexes crosswise.
pub const CROSSED: &str = r"
pthread_mutex_t a;
pthread_mutex_t b;
void *w(void *x) {
    pthread_mutex_lock(&b); pthread_mutex_lock(&a);
    pthread_mutex_unlock(&a); pthread_mutex_unlock(&b);
    return NULL;
}
int main(void) {
    pthread_t t;
    pthread_create(&t, NULL, w, NULL);
    pthread_mutex_lock(&a); pthread_mutex_lock(&b);
    pthread_mutex_unlock(&b); pthread_mutex_unlock(&a);
    pthread_join(t, NULL);
    return 0;
}
";

/// A schedule of the crossed threads: each has its first mutex.
pub const LOCKED: &str = r"
0 step 0
0 step 0
0 step 1
0 step 1
0 step 0
";

/// Two threads that never end.
pub const FOREVER: &str = r"
int n;
void *w(void *a) { while (1) { n = n + 1; } return NULL; }
int main(void) {
    pthread_t t;
    pthread_create(&t, NULL, w, NULL);
    while (1) { n = n - 1; }
    return 0;
}
";

pub const RELOCK: &str = r"
pthread_mutex_t a;
int main(void) { pthread_mutex_lock(&a); pthread_mutex_lock(&a); return 0; }
";

pub const UNLOCK: &str = r"
pthread_mutex_t a;
int main(void) { pthread_mutex_unlock(&a); return 0; }
";

pub const SELF_JOIN: &str = "int main(void) { pthread_t t; pthread_join(t, NULL); return 0; }";

pub const CROWD: &str = r"
void *w(void *a) { while (1) { } return NULL; }
int main(void) {
    pthread_t t;
    while (1) { pthread_create(&t, NULL, w, NULL); }
    return 0;
}
";

pub const MANY: &str = r"
void *w(void *a) { return NULL; }
int main(void) {
    pthread_t t;
    while (1) { pthread_create(&t, NULL, w, NULL); pthread_join(t, NULL); }
    return 0;
}
";

pub const LEFT_LOCKED: &str = r"
pthread_mutex_t a;
void *w(void *x) { pthread_mutex_lock(&a); return NULL; }
int main(void) {
    pthread_t t;
    pthread_create(&t, NULL, w, NULL);
    pthread_join(t, NULL);
    pthread_mutex_lock(&a);
    return 0;
}
";

/// Five threads that never end, of which the main one starts the others.
pub const FIVE: &str = r"
void *w(void *a) { while (1) { } return NULL; }
int main(void) {
    pthread_t t;
    pthread_create(&t, NULL, w, NULL);
    pthread_create(&t, NULL, w, NULL);
    pthread_create(&t, NULL, w, NULL);
    pthread_create(&t, NULL, w, NULL);
    while (1) { }
    return 0;
}
";
