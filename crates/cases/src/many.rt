// A step that asks for several names in one call: a line for the call, one for each name, and one with the whole buffer, which has zeros where nothing is written.
use crate::print::{Needed, Told, hex};
use crate::step::{Names, SIZES};
use model::{Answer, Context, View};

fn given_into(
    c: Context,
    view: View,
    names: Names<'_>,
    image: &[u8],
    told: &mut [u32; 256],
    buffer: &mut [u8],
) -> Answer {
    let sizes = names.sizes;
    let n = names.number.min(SIZES);
    engine::many::get_many(c, view, image, names.places, &sizes[..n], told, buffer)
}

// What the get of one name answers; of a done one size and attributes too.
fn print_given(rt: &impl Print, given: [u32; 4]) {
    let [rule, size, attributes, needed] = given;
    let needed = Needed(needed);
    let _ = match rule {
        0 => println!(rt;
            "done size {size} attributes {:02X}{needed}",
            attributes % 256
        ),
        _ => println!(rt; "refused {rule}{needed}"),
    };
}

pub(crate) fn get_many(
    rt: &impl Print,
    c: Context,
    view: View,
    room: u16,
    names: Names<'_>,
    image: &[u8],
) {
    let mut space = [0; 65536];
    let buffer = &mut space[..usize::from(room)];
    let mut told = [0; 256];
    let answer = given_into(c, view, names, image, &mut told, buffer);
    let _ = println!(rt; "many-get {}", Told(answer));
    if let Answer::Done(_) = answer {
        let (given, _) = told.as_chunks();
        for &one in given.iter().take(names.number) {
            print_given(rt, one);
        }
    }
    let _ = print!(rt; "buffer ");
    hex(rt, buffer);
    let _ = println!(rt);
}
