//! Texts that the program writes.

pub(crate) const VERSION: &str = "stinger 0.1.0\n";

// What stands on standard error where the output could not be written.
pub(crate) const UNWRITTEN: &str = "error: the output can't be written\n";

// What stands there if the store was not opened because memory ran out.
pub(crate) const UNOPENED: &str =
    "error: out of memory: the store can't be opened, and fewer blocks or seats take less\n";

// What stands there behind the error line with the word Read.
pub(crate) const UNREAD: &str =
    "error: the input can't be read, or it has a record too many: a script has fewer than 1,000,000\n";

pub(crate) const NOT_TEXT: &str = "error: an argument is not UTF-8\n";

// What stands at the end of each help.
pub(crate) const FORMATS: &str = "
A script is comma-separated records (RFC 4180), one a line, without a header. A field may
be quoted, and nothing is trimmed. Each record, and below it what it prints:

  i,<kind>,<source>,<target>,<weight>,<time>   inserts an edge into the pending batch, or sets
                                               the weight of the one that is there
  a,<kind>,<source>,<target>,<amount>,<time>   adds to an edge's weight, or inserts the edge
  r,<kind>,<source>,<target>                   removes an edge
  x,<time>                                     removes each edge whose recent time is before this time
  commit                                       applies the pending batch, also an empty one
      commit v=<version> ins=<n> upd=<n> rem=<n> abs=<n> ovf=<n>, and behind it exp=<n>, how many edges
      its expiries removed, where it has an x
  open,<slot>                                  holds the last version in a slot
      open <slot> v=<version>
  close,<slot>                                 releases it
      close <slot>
  bfs,<slot>,<source>,<kind or *>,<lo>,<hi>    levels from the source, over the edges with a recent time in
                                               lo to hi: the least numbers of edges on a walk from it
      bfs <slot> reached=<n>, and then a line for each vertex that was reached: <name> <level>
  comp,<slot>,<kind or *>,<lo>,<hi>            labels, over the edges of such a time in either direction: the
                                               first vertex of those that a walk joins
      comp <slot> parts=<n>, and then a line for each vertex: <name> <name of its label>
  core,<slot>,<kind or *>,<lo>,<hi>            core numbers, over them: the greatest k so that the vertex is in a
                                               set of which each has k neighbors in the set
      core <slot> max=<n>, and then a line for each vertex: <name> <core number>
  deg,<slot>,<kind or *>,<lo>,<hi>             degrees over the edges with a recent time in lo to hi
      deg <slot> edges=<n>, and then a line for each vertex: <name> <out> <in> <weight out>
  edge,<slot>,<kind>,<source>,<target>         one edge: its weight, first and recent time
      edge <slot> <weight> <first> <recent>, or edge <slot> none
  collect                                      frees each replaced block, but for those that came with a held version
                                               or before it and were replaced after it; the floor is the least
                                               number among the last version and those held
      collect floor=<n> recycled=<n> retired=<n>
  stat                                         counts of the last version, and blocks free, retired, used
      stat v=<version> names=<n> edges=<n> free=<n> retired=<n> used=<n>
  rebase,<slot>                                begins the store anew: its version 0 has the graph of the version that the
                                               slot holds, no batch is kept, no slot is open, no block is retired,
                                               and pending operations stay pending
      rebase v=0 names=<n> edges=<n> used=<n>
  the end of the input
      end pending=<n>, where operations are pending

A batch inserts, updates, removes and expires edges in its order: a removal may find none (abs), and
an edge whose weight would leave its limits stays as it was (ovf).

Limits: a name has 1 to 64 bytes from ! to ~, and a kind is not *. A weight or an amount
is from -1099511627776 to 1099511627776. A time is from 0 to 9223372036854775807. A slot is
a whole number below that of the seats, which `--seats` gives (2 without it). A batch has at
most 4,096 operations and needs as many free blocks, and with an x as many more as are used. A
graph has at most 65,536 names and 64 kinds. A run applies at most 65,536 batches, and as many
again behind each rebase. A script has fewer than 1,000,000 records.

Options of `run`, each at most once: `--workers <N>` (how many threads may work on a batch: 1 to
8, else 4), `--blocks <N>` (16 to 65536, else 16384), `--seats <N>` (1 to 16, else 2) and `--quiet`:
without it a line on standard error shows how far the script was read, where standard error is a
terminal, and standard input and output are none.

`drive --readers <N>` (1 to 4) reads no input: it checks a store on this machine, with so many threads that
read while one feeds 64 batches, and prints `drive readers=<N> batches=64 checked=<n> wrong=<n> last=<n>`.

A session, with what each record prints beside it:

  i,knows,ann,bob,5,10
  commit                           commit v=1 ins=1 upd=0 rem=0 abs=0 ovf=0
  open,0                           open 0 v=1
  edge,0,knows,ann,bob             edge 0 5 10 10

A refused record prints `error <record> <Word>`, where the first record is 1 and blank lines
aren't counted, and the run goes on. It changes nothing, but a refused commit gives its batch up. The words:
BadCommand, BadFields, BadName, BadWeight, BadTime, BadSlot, NotOpen, AlreadyOpen,
BadWindow, NoKind, NoVertex, BatchFull, BatchLimit, NamesFull, KindsFull, PoolEmpty. Three more
end the run: Read, where the input can't be read or has a record too many, Memory, and Start, where
a rebase opened no store though there was memory.

Status: 0 where the script was read to its end without an error line, 1 with an error line
or where the run broke off, 2 for wrong arguments; of `drive` 0 where wrong is 0 and last 64, else 1.
`stinger help` is `stinger --help`, `stinger help run` is `stinger run --help`, `stinger help drive` is
`stinger drive --help`, and `stinger --version`, or `-V`, tells the version.
";

// What stands at the end of what is said of wrong arguments.
pub(crate) const HINT: &str = "\
`stinger run` reads a script on standard input. `stinger --help` says what a script is.
";
