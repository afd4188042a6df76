// The lines of a text and the fields of a line, by their places.
ghost use Rattle.std.specs.Prelude.{◌≡◌, ◌+◌, ◌≤◌, length, drop};
ghost use Rattle.line_form.specs.Split.{field};
ghost use Rattle.line_form.specs.Steps.{count_before, FieldsOf, Parted};

// Returns the place of the first byte c at or after `at`, or the length where there is none.
pub(crate) fn find(s: &[u8], at: usize, c: u8) -> usize
    requires { at ≤ length s.now }
    ensures { result ≡ at + count_before c (drop at s.now) }
{
    for i in at..s.len() {
        if s[i] == c {
            return i;
        }
    }
    s.len()
}

// Returns where each field of a line begins, if it has eleven; the twelfth place is past the line's end.
pub(crate) fn fields_of(line: &[u8]) -> Option<[usize; 12]>
    requires { length line.now ≤ 32768 }
    ensures { FieldsOf line.now result }
{
    let mut from = [0usize; 12];
    let mut at: usize = 0;
    for k in 0..10 {
        let e = find(line, at, b',');
        if e == line.len() {
            return None;
        }
        at = e + 1;
        from[k + 1] = at;
    }
    let e = find(line, at, b',');
    if e != line.len() {
        return None;
    }
    from[11] = e + 1;
    Some(from)
}

// Returns field k of a line of eleven fields.
pub(crate) fn field_at(line: &[u8], from: [usize; 12], k: usize) -> &[u8]
    requires parted { Parted line.now from }
    requires k_bound { k ≤ 10 }
    ensures { result.now ≡ field line.now k }
{
    let a = from[k];
    let e = from[k + 1] - 1;
    &line[a..e]
}
