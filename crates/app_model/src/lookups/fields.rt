ghost use Rattle.std.specs.Prelude.{◌≡◌, drop};
ghost use Rattle.std.specs.Ordering.{ordering_then};
ghost use Rattle.app_machine.specs.Sound.{SoundApp, field_order};
ghost use Rattle.app_model.specs.Search.{field_key};
ghost use Rattle.app_model.specs.Upward.{field_of};

use crate::{App, Key};
use std::cmp::Ordering;

/// The number of the key of the instance field that the class itself defines.
pub(super) fn field_of(app: &App, class: &[u8], name: &[u8], kind: &[u8]) -> Option<u32>
    requires { SoundApp app.now }
    ensures { result ≡ field_of app.now class.now name.now kind.now }
{
    let fields = field_keys(app);
    match fields.binary_search_by(|key| compare_key(key, class, name, kind)) {
        Ok(i) => Some(i as u32 + 1),
        Err(_) => None,
    }
}

/// The keys behind that of all elements.
fn field_keys(app: &App) -> &[Key]
    ensures { result.now ≡ drop 1 app.now.keys }
{
    match app.keys.as_slice() {
        [_, fields @ ..] => fields,
        [] => &[],
    }
}

fn compare_key(key: &Key, class: &[u8], name: &[u8], kind: &[u8]) -> Ordering
    ensures { result ≡ field_order (field_key key.now) (class.now, name.now, kind.now) }
{
    match key {
        Key::Elem => compare_parts((b"", b"", b""), (class, name, kind)),
        Key::Field(of, field, is) => compare_parts(
            (of.as_bytes(), field.as_bytes(), is.as_bytes()),
            (class, name, kind),
        ),
    }
}

fn compare_parts(a: (&[u8], &[u8], &[u8]), b: (&[u8], &[u8], &[u8])) -> Ordering
    ensures { result ≡ field_order (a.entry.0.now, a.entry.1.now, a.entry.2.now)
        (b.entry.0.now, b.entry.1.now, b.entry.2.now) }
{
    match a.0.cmp(b.0) {
        Ordering::Equal => match a.1.cmp(b.1) {
            Ordering::Equal => a.2.cmp(b.2),
            order => order,
        },
        order => order,
    }
}
