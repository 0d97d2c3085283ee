// The twelve keys, each with its equals sign, in one table that reader and writer share. A key is named by its place, as 01's definition
// `key` has it, and not by an enum: the keys of a part's rows come after its count's, and go round by arithmetic.
ghost use Rattle.std.specs.Prelude.{◌≡◌, ◌<◌, ◌≤◌, length};
ghost use Rattle.rules.specs.Text.{key};

static KEYS: [&[u8]; 12] = [
    b"jobs=",
    b"release=",
    b"cost=",
    b"deadline=",
    b"arcs=",
    b"before=",
    b"after=",
    b"sections=",
    b"job=",
    b"resource=",
    b"from=",
    b"to=",
];

// Key k.
#[tactic(auto, unfolding(rules::specs::Text::key, rules::specs::Text::keys, rules::specs::Text::bytes_of))]
pub fn key(k: usize) -> &'static [u8]
    requires { k < 12 }
    ensures is { result.now ≡ key k }
    ensures short { length result.now ≤ 9 }
{
    KEYS[k]
}
