//! The operators at widths from 1 to 64 bits, at their ends and in between. The answers are those of
//! Python's integers, cut to the width.

use rb_rows_calls::call::expect_answer;
use rb_rows_calls::surprise::{Surprise, no_row};
use std::alloc::Global;

// Body, width of the parameters, width of the result, arguments, answer.
const OPERATORS: &str = "add(x, 1)|64|64|18446744073709551615|0|0\n\
add(x, y)|1|1|1|0|1\n\
sub(x, y)|1|1|0|1|1\n\
mul(x, y)|1|1|0|0|0\n\
and(x, y)|1|1|1|0|0\n\
or(x, y)|1|1|0|0|0\n\
xor(x, y)|1|1|0|1|1\n\
eq(x, y)|1|1|1|0|0\n\
lt(x, y)|1|1|0|0|0\n\
add(x, y)|7|7|127|15|14\n\
sub(x, y)|7|7|31|57|102\n\
mul(x, y)|7|7|15|101|107\n\
and(x, y)|7|7|12|56|8\n\
or(x, y)|7|7|11|34|43\n\
xor(x, y)|7|7|74|107|33\n\
eq(x, y)|7|1|36|30|0\n\
lt(x, y)|7|1|78|46|0\n\
add(x, y)|8|8|255|96|95\n\
sub(x, y)|8|8|49|190|115\n\
mul(x, y)|8|8|32|30|192\n\
and(x, y)|8|8|105|254|104\n\
or(x, y)|8|8|218|160|250\n\
xor(x, y)|8|8|238|232|6\n\
eq(x, y)|8|1|185|185|1\n\
lt(x, y)|8|1|127|92|0\n\
add(x, y)|31|31|2147483647|351564607|351564606\n\
sub(x, y)|31|31|1289560149|2126508550|1310535247\n\
mul(x, y)|31|31|1475216845|1927728186|414887026\n\
and(x, y)|31|31|1236683272|314395342|11815432\n\
or(x, y)|31|31|507088656|1795823848|2134614008\n\
xor(x, y)|31|31|708506836|1469118510|2108296442\n\
eq(x, y)|31|1|652768597|2100080514|0\n\
lt(x, y)|31|1|1811180649|168393879|0\n\
add(x, y)|32|32|4294967295|3422624989|3422624988\n\
sub(x, y)|32|32|279172786|1159380353|3414759729\n\
mul(x, y)|32|32|1914012528|3077892946|3914066400\n\
and(x, y)|32|32|1490376253|4040054837|1355042869\n\
or(x, y)|32|32|1526706729|2623879480|3741301561\n\
xor(x, y)|32|32|2120395274|1234510745|938969491\n\
eq(x, y)|32|1|3171246566|3171246566|1\n\
lt(x, y)|32|1|2132480060|714537754|0\n\
add(x, y)|63|63|9223372036854775807|7660868490996640314|7660868490996640313\n\
sub(x, y)|63|63|2783999438640809983|6618159778303122250|5389211697192463541\n\
mul(x, y)|63|63|3250643386993900586|4278848962992766397|5765064980545154306\n\
and(x, y)|63|63|4304291062942567561|8945983390865592478|4044936608088359048\n\
or(x, y)|63|63|4846819625942255055|75513742547000508|4850200728350662143\n\
xor(x, y)|63|63|7728198878411557966|6811526131810497537|3875194658738010191\n\
eq(x, y)|63|1|995993044989937793|7238113235921825480|0\n\
lt(x, y)|63|1|7359860375361676323|1909922256862383277|0\n\
add(x, y)|64|64|18446744073709551615|3516125473068251432|3516125473068251431\n\
sub(x, y)|64|64|2027819370134942629|3851001040557255949|16623562403287238296\n\
mul(x, y)|64|64|969848822547694345|10455312238105283016|10874243165466980360\n\
and(x, y)|64|64|11321454216663632431|16128585671278343069|11318709284591632909\n\
or(x, y)|64|64|6940206775428947996|11110090075569816945|18050138477969778045\n\
xor(x, y)|64|64|2266039225740819858|8595988331128593315|7510178424417379889\n\
eq(x, y)|64|1|5752659948297033355|5752659948297033355|1\n\
lt(x, y)|64|1|9524690733828934254|6673155101688586360|0\n\
to u64(x)|1|64|0|0|0\n\
to u1(x)|64|1|18446744073709551615|0|1\n\
to u7(x)|8|7|255|0|127\n\
to u8(x)|7|8|66|0|66\n\
to u31(x)|32|31|4294967295|0|2147483647\n\
to u32(x)|31|32|717440070|0|717440070\n\
to u64(x)|63|64|6081245716983890059|0|6081245716983890059\n\
to u63(x)|64|63|18446744073709551615|0|9223372036854775807";

// Looks at one row, whose columns have a `|` between them.
fn expect_operator(alloc: Global, row: &str) -> Result<(), Surprise> {
    let columns: Vec<&str> = row.split('|').collect(alloc)?;
    let [body, width, result, x, y, answer] = columns.as_slice() else {
        return no_row(alloc, row);
    };
    let file = format!(in alloc; "fun main(x: u{width}, y: u{width}): u{result} = {body};")?;
    let words = format!(in alloc; "run E 1 64 {x} {y}")?;
    let wanted = format!(in alloc; "0 {answer};")?;
    expect_answer(alloc, words.as_str(), file.as_bytes(), wanted.as_str())
}

// Looks at each line of a table.
fn expect_operators(alloc: Global, rows: &str) -> Result<(), Surprise> {
    for row in rows.split('\n') {
        expect_operator(alloc, row)?;
    }
    Ok(())
}

#[test]
fn operators_at_their_widths(rt: HostRuntime) -> Result<(), Surprise> {
    expect_operators(rt.alloc(), OPERATORS)
}
