// The entries for programs in C, in Rust and in other languages: the static library. Each is one call of the function of `exports` of the same name.
#![tactic(auto)]

ghost use Rattle.exports.specs.Replies.{Checks, Lists, Asks, Reads, Writes, Prints};

// The check of a table: `links::check`.
#[unsafe(no_mangle)]
pub extern "C" fn jointrise_check(numbers: &[u32], gauges: u32, reply: &mut [u64; 5])
    ensures { Checks numbers.now gauges reply.new }
{
    exports::jointrise_check(numbers, gauges, reply)
}

// The list of the groups: `groups::list`.
#[unsafe(no_mangle)]
pub extern "C" fn jointrise_list(
    numbers: &[u32],
    gauges: u32,
    rows: &mut [u64],
    reply: &mut [u64; 5],
)
    ensures { Lists numbers.now gauges rows.old rows.new reply.new }
{
    exports::jointrise_list(numbers, gauges, rows, reply)
}

// The question about one group: `question::ask`.
#[unsafe(no_mangle)]
pub extern "C" fn jointrise_ask(
    numbers: &[u32],
    gauges: u32,
    members: u64,
    begin: u64,
    end: u64,
    reply: &mut [u64; 5],
)
    ensures { Asks numbers.now gauges members begin end reply.new }
{
    exports::jointrise_ask(numbers, gauges, members, begin, end, reply)
}

// The reader of the link file: `linkfile::read`.
#[unsafe(no_mangle)]
pub extern "C" fn jointrise_read(bytes: &[u8], numbers: &mut [u32], reply: &mut [u64; 5])
    ensures { Reads bytes.now numbers.old numbers.new reply.new }
{
    exports::jointrise_read(bytes, numbers, reply)
}

// The writer of the link file: `linkfile::write`.
#[unsafe(no_mangle)]
pub extern "C" fn jointrise_write(
    numbers: &[u32],
    gauges: u32,
    bytes: &mut [u8],
    reply: &mut [u64; 5],
)
    ensures { Writes numbers.now gauges bytes.old bytes.new reply.new }
{
    exports::jointrise_write(numbers, gauges, bytes, reply)
}

// The listing of a link file as text: `report::listing`.
#[unsafe(no_mangle)]
pub extern "C" fn jointrise_listing(input: &[u8], out: &mut [u8], reply: &mut [u64; 5])
    ensures { Prints input.now out.old out.new reply.new }
{
    exports::jointrise_listing(input, out, reply)
}
