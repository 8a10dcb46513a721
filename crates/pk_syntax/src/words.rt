ghost use Rattle.std.specs.Prelude.{◌≡◌};
ghost use Rattle.pk_syntax.specs.Words.{is_reserved};

// The words of the grammar by how many bytes they have, each list in the order of its letters. None of them
// is a name.
const OF_TWO: [&[u8]; 4] = [b"by", b"is", b"of", b"or"];

const OF_THREE: [&[u8]; 7] = [b"add", b"and", b"asc", b"int", b"key", b"not", b"set"];

const OF_FOUR: [&[u8]; 10] = [
    b"desc", b"drop", b"from", b"into", b"keys", b"null", b"over", b"show", b"text", b"with",
];

const OF_FIVE: [&[u8]; 7] = [
    b"alter", b"begin", b"count", b"cover", b"order", b"table", b"where",
];

const OF_SIX: [&[u8]; 11] = [
    b"bigint", b"commit", b"create", b"decide", b"delete", b"domain", b"insert", b"select",
    b"unique", b"update", b"values",
];

const OF_SEVEN: [&[u8]; 6] = [
    b"certain", b"implies", b"integer", b"primary", b"session", b"varchar",
];

const OF_EIGHT: [&[u8]; 4] = [b"discover", b"examples", b"possible", b"rollback"];

const OF_TEN: [&[u8]; 2] = [b"checkpoint", b"constraint"];

const OF_TWELVE: [&[u8]; 1] = [b"serializable"];

/// Whether the word is one of the grammar, and so no name. It is given in small letters, as names
/// are kept.
pub fn is_reserved(word: &[u8]) -> bool
    ensures { result ≡ is_reserved word.now }
{
    let length = word.len();
    if length == 2 {
        OF_TWO.contains(&word)
    } else if length == 3 {
        OF_THREE.contains(&word)
    } else if length == 4 {
        OF_FOUR.contains(&word)
    } else if length == 5 {
        OF_FIVE.contains(&word)
    } else if length == 6 {
        OF_SIX.contains(&word)
    } else if length == 7 {
        OF_SEVEN.contains(&word)
    } else if length == 8 {
        OF_EIGHT.contains(&word)
    } else if length == 10 {
        OF_TEN.contains(&word)
    } else if length == 12 {
        OF_TWELVE.contains(&word)
    } else {
        false
    }
}
