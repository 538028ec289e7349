//! Sources that crates of tests read: files of `examples/`, to the letter (the gate compares them).
#![tactic(auto)]

/// The lock with its two threads, `lock.c`.
pub const LOCK: &str = "#include <vcc.h>
struct Data {
  int v;
  _(invariant v >= 0)
};
_(claimable, volatile_owns) struct Lock {
  volatile int locked;
  _(ghost \\object protected_obj;)
  _(invariant locked == 0 ==> \\mine(protected_obj))
};
void InitializeLock(struct Lock *l _(ghost \\object obj))
  _(writes \\span(l), obj)
  _(requires \\wrapped(obj))
  _(ensures \\wrapped(l) && l->protected_obj == obj)
{
  l->locked = 0;
  _(ghost l->protected_obj = obj;)
  _(ghost l->\\owns = {obj};)
  _(wrap l)
}
void Acquire(struct Lock *l _(ghost \\claim c))
  _(maintains \\wrapped(c) && \\claims_object(c, l))
  _(ensures \\wrapped(l->protected_obj) && \\fresh(l->protected_obj))
{
  int stop = 0;
  do {
    _(atomic c, l) {
      stop = InterlockedCompareExchange(&l->locked, 1, 0) == 0;
      _(ghost if (stop) l->\\owns -= l->protected_obj;)
    }
  } while (!stop);
}
void Release(struct Lock *l _(ghost \\claim c))
  _(requires l->protected_obj != c)
  _(maintains \\wrapped(c) && \\claims_object(c, l))
  _(requires \\wrapped(l->protected_obj))
  _(writes l->protected_obj)
{
  _(atomic c, l) {
    l->locked = 0;
    _(ghost l->\\owns += l->protected_obj;)
  }
}
void Worker(struct Lock *l, struct Data *d _(ghost \\claim c))
  _(requires \\wrapped(c) && \\claims_object(c, l) && l->protected_obj == d)
  _(writes c)
{
  Acquire(l _(ghost c));
  _(unwrap d)
  d->v = 1;
  _(wrap d)
  Release(l _(ghost c));
}
void main()
{
  struct Lock *l = malloc(sizeof(struct Lock));
  struct Data *d = malloc(sizeof(struct Data));
  if (l != NULL && d != NULL) {
    d->v = 0;
    _(wrap d)
    InitializeLock(l _(ghost d));
    _(ghost \\claim a = \\make_claim({l}, \\true);)
    _(ghost \\claim b = \\make_claim({l}, \\true);)
    vcc_spawn(Worker, l, d _(ghost a));
    vcc_spawn(Worker, l, d _(ghost b));
  }
}
";

/// Atomic blocks that list one object twice, `atomic.c`.
pub const ATOMIC: &str = "_(claimable) struct Ctr { volatile int n; _(invariant \\old(n) <= n) };
void f(struct Ctr *p) _(requires \\wrapped(p)) { _(atomic p, p) { } }
void main() {}
";
