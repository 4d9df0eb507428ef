// All 256 flag bytes, the words for expand types, and calls of the config, chosen and then drawn, each with its answer beside it.
#![tactic(auto)]

mod calls;
mod draw;
mod print;

fn main() {
    calls::flags();
    calls::words();
    let map = config::StyleConfigMap::default_rich_text_config();
    calls::built_in(&map);
    calls::names(map);
    calls::defaults(map);
    calls::full(map);
    draw::tables();
}
