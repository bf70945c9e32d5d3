//! The page of a comparison, around its numbers: written by tools/page.py from page/compare.html.

/// What stands before the numbers.
pub(crate) const BEFORE: &str = "<!doctype html>\n\
    <html lang=\"en\">\n\
    <head>\n\
    <meta charset=\"utf-8\">\n\
    <meta http-equiv=\"Content-Security-Policy\" content=\"default-src 'none'; script-src 'sha256-fTEcMvo/W13amXMZYC94zziwIKdZUJ9MHXGZM/9ht68='; style-src 'sha256-MYjGq/0nic8xdLGuD8nrYmRpDeeXOUtoL8pEoNLvQGg='; img-src data:; base-uri 'none'; form-action 'none'\">\n\
    <meta name=\"viewport\" content=\"width=device-width, initial-scale=1\">\n\
    <meta name=\"color-scheme\" content=\"light dark\">\n\
    <title>tsc compare</title>\n\
    <link rel=\"icon\" href=\"data:,\">\n\
    <style>\n\
    :root {\n\
    \tcolor-scheme: light dark;\n\
    \t--page: #f4f5f6; --card: #fff; --line: #d9dde2; --faint: #eceef1; --text: #1a1e23; --muted: #56606b; --link: #0b5cad;\n\
    \t--old: #b45f06; --new: #0072b2; --both: #56697c; --none: #dfe3e8; --on: #fff;\n\
    }\n\
    @media (prefers-color-scheme: dark) {\n\
    \t:root {\n\
    \t\t--page: #121518; --card: #1b1f24; --line: #333a42; --faint: #272c33; --text: #e8ebee; --muted: #a4aeb9; --link: #7ab8f5;\n\
    \t\t--old: #f0a13c; --new: #4aa9ea; --both: #8fa1b3; --none: #343b43; --on: #121518;\n\
    \t}\n\
    }\n\
    * { box-sizing: border-box; }\n\
    body { margin: 0; background: var(--page); color: var(--text); font: 15px/1.45 Inter, system-ui, \"Segoe UI\", Roboto, sans-serif; font-variant-numeric: tabular-nums; }\n\
    main { max-width: 1240px; margin: 0 auto; padding: 22px 20px 40px; display: grid; gap: 16px; grid-template-columns: minmax(0, 1fr); }\n\
    h1, h2, h3, p, dl, dd, ul { margin: 0; }\n\
    h1 { font-size: 24px; line-height: 1.25; letter-spacing: -.01em; }\n\
    h2 { font-size: 16px; }\n\
    h3 { font-size: 14px; margin-bottom: 4px; }\n\
    code, .id { font: 13px/1.4 ui-monospace, Menlo, Consolas, monospace; }\n\
    select { font: inherit; color: inherit; background: var(--card); border: 1px solid var(--muted); border-radius: 6px; padding: 4px 10px; min-height: 34px; }\n\
    :focus-visible { outline: 2px solid var(--link); outline-offset: 2px; }\n\
    .muted, dt, .says { color: var(--muted); }\n\
    .card { background: var(--card); border: 1px solid var(--line); border-radius: 10px; padding: 16px 18px; min-width: 0; }\n\
    .head { display: flex; flex-wrap: wrap; align-items: baseline; gap: 2px 12px; margin-bottom: 10px; }\n\
    .head .muted { font-size: 14px; }\n\
    .head .right { margin-left: auto; font-size: 14px; }\n\
    .two { display: grid; gap: 16px; grid-template-columns: repeat(2, minmax(0, 1fr)); }\n\
    .three { display: grid; gap: 16px; grid-template-columns: repeat(3, minmax(0, 1fr)); }\n\
    .facts { display: flex; flex-wrap: wrap; gap: 4px 26px; margin-top: 10px; font-size: 14px; }\n\
    .facts div { display: flex; gap: 6px; flex-wrap: wrap; }\n\
    .old, .new { font-weight: 600; }\n\
    .old::before, .new::before { content: \"\"; display: inline-block; width: 11px; height: 11px; border-radius: 2px; margin-right: 7px; background: var(--new); }\n\
    .old::before { background: var(--old); border-radius: 50%; }\n\
    .change { font-size: 26px; font-weight: 600; line-height: 1.25; }\n\
    .scroll { overflow-x: auto; }\n\
    table { border-collapse: collapse; width: 100%; font-size: 14px; }\n\
    th { font-weight: 400; text-align: left; color: var(--muted); vertical-align: bottom; }\n\
    th, td { padding: 5px 14px 5px 0; border-bottom: 1px solid var(--faint); }\n\
    tr > :last-child { padding-right: 0; }\n\
    tbody th, td { color: var(--text); vertical-align: top; }\n\
    tbody tr:last-child > * { border-bottom: 0; }\n\
    td.says { color: var(--muted); }\n\
    .n { text-align: right; white-space: nowrap; }\n\
    tr.sum > * { border-top: 1px solid var(--muted); font-weight: 600; }\n\
    .pair { display: block; width: 100%; min-width: 110px; height: 18px; margin-top: 2px; }\n\
    svg text { fill: var(--muted); font-size: 12px; }\n\
    svg .strong { fill: var(--text); font-weight: 600; font-size: 13px; }\n\
    svg .on { fill: var(--on); }\n\
    .picture { display: block; width: 100%; }\n\
    .grid { stroke: var(--line); }\n\
    .axis { stroke: var(--muted); }\n\
    .line-old, .line-new { fill: none; stroke-width: 2; stroke-linejoin: round; }\n\
    .line-old { stroke: var(--old); stroke-dasharray: 7 4; }\n\
    .line-new { stroke: var(--new); }\n\
    .cursor { stroke: var(--text); stroke-dasharray: 3 3; }\n\
    details { margin-top: 10px; font-size: 14px; }\n\
    summary { cursor: pointer; color: var(--link); min-height: 24px; }\n\
    @media (max-width: 820px) { .two { grid-template-columns: minmax(0, 1fr); } }\n\
    @media (max-width: 600px) {\n\
    \tmain { padding: 16px 12px 30px; }\n\
    \t.card { padding: 14px 12px; }\n\
    \t.three { gap: 8px; grid-template-columns: minmax(0, 1fr); }\n\
    \t.three .card { display: grid; grid-template-columns: 1fr auto; align-items: baseline; }\n\
    \t.three .card p:last-child { grid-column: 1 / -1; }\n\
    \t.change { font-size: 22px; }\n\
    \th1 { font-size: 20px; }\n\
    \t.narrow { display: none; }\n\
    \tth, td { padding-right: 9px; }\n\
    }\n\
    @media print { body { background: none; } .card { break-inside: avoid; } }\n\
    </style>\n\
    </head>\n\
    <body>\n\
    <main>\n\
    \t<noscript><p>The pictures and tables of this report are made by a script, and scripts are off. Its numbers stand in this file as JSON.</p></noscript>\n\
    \t<header class=\"card\">\n\
    \t\t<p class=\"muted\">What would the new configuration keep?</p>\n\
    \t\t<h1 id=\"headline\"></h1>\n\
    \t\t<dl class=\"facts\" id=\"facts\"></dl>\n\
    \t</header>\n\
    \n\
    \t<div class=\"three\" id=\"totals\"></div>\n\
    \n\
    \t<section class=\"card\">\n\
    \t\t<div class=\"head\"><h2>Which traces are kept</h2><p class=\"muted\" id=\"same-share\"></p></div>\n\
    \t\t<svg class=\"picture\" id=\"overlap\" role=\"img\"></svg>\n\
    \t\t<div class=\"scroll\" id=\"overlap-table\"></div>\n\
    \t</section>\n\
    \n\
    \t<section class=\"card\">\n\
    \t\t<div class=\"head\"><h2>Kept spans a second over time</h2><p class=\"muted\" id=\"step\"></p></div>\n\
    \t\t<svg class=\"picture\" id=\"over-time\" role=\"img\" tabindex=\"0\"></svg>\n\
    \t\t<p id=\"moment\" class=\"muted\" aria-live=\"off\"></p>\n\
    \t\t<details><summary>The picture as a table</summary><div class=\"scroll\" id=\"times\"></div></details>\n\
    \t</section>\n\
    \n\
    \t<section class=\"card\">\n\
    \t\t<div class=\"head\"><h2>What each policy keeps</h2><p class=\"muted\">by the policy that decided; upper bar old, lower bar new</p></div>\n\
    \t\t<div class=\"scroll\" id=\"policies\"></div>\n\
    \t</section>\n\
    \n\
    \t<div class=\"two\">\n\
    \t\t<section class=\"card\"><div class=\"head\"><h2>Services that lose most</h2><p class=\"muted\">kept spans</p></div><div class=\"scroll\" id=\"losers\"></div></section>\n\
    \t\t<section class=\"card\"><div class=\"head\"><h2>Services that gain most</h2><p class=\"muted\">kept spans</p></div><div class=\"scroll\" id=\"gainers\"></div></section>\n\
    \t</div>\n\
    \n\
    \t<section class=\"card\">\n\
    \t\t<div class=\"head\"><h2>Traces that one alone keeps</h2><p class=\"muted\" id=\"differ-of\"></p>\n\
    \t\t\t<label class=\"right\">Show <select id=\"which\"><option value=\"\">all</option><option value=\"old\">kept by the old alone</option><option value=\"new\">kept by the new alone</option></select></label></div>\n\
    \t\t<div class=\"scroll\" id=\"differ\"></div>\n\
    \t</section>\n\
    </main>\n\
    \n\
    <script type=\"application/json\" id=\"comparison\">\n";

/// What stands behind them.
pub(crate) const BEHIND: &str = "\n\
    </script>\n\
    <script>\n\
    \"use strict\";\n\
    const told = JSON.parse(document.getElementById(\"comparison\").textContent);\n\
    const $ = id => document.getElementById(id);\n\
    const page = { size: { width: 1000 }, chosen: null, scale: { left: 0, right: 1 } };\n\
    const seconds = told.over_time.every_ms / 1000;\n\
    const rates = { old: told.over_time.old.map(it => it / seconds), next: told.over_time.new.map(it => it / seconds) };\n\
    \n\
    // Numbers as texts.\n\
    \n\
    const whole = new Intl.NumberFormat(\"en\", { maximumFractionDigits: 0 });\n\
    const count = n => whole.format(n);\n\
    const rate = n => n && n < 9.95 ? n.toFixed(1) : count(n);\n\
    const percent = part => part && part < 0.0005 ? \"<0.1 %\" : (100 * part).toFixed(1) + \" %\";\n\
    const signed = n => (n > 0 ? \"+\" : n < 0 ? \"−\" : \"±\") + count(Math.abs(n));\n\
    // A moment: of the wall clock (milliseconds since 1970), or where a script counts from 0 in seconds.\n\
    const isWall = ms => ms >= 1e11 && ms <= 8.64e15;\n\
    const clock = ms => isWall(ms) ? new Date(ms).toISOString().slice(11, 19) : `${(ms / 1000).toFixed(1)} s`;\n\
    const moment = ms => isWall(ms) ? new Date(ms).toISOString().slice(0, 19).replace(\"T\", \" \") : clock(ms);\n\
    const apart = ms => ms < 120000 ? `${ms / 1000} ${ms === 1000 ? \"second\" : \"seconds\"}` : ms < 7200000 ? `${(ms / 60000).toFixed(0)} minutes` : `${(ms / 3600000).toFixed(1)} hours`;\n\
    \n\
    function bytes(n) {\n\
    \tlet unit = 0;\n\
    \twhile (n >= 10000 && unit < 4) { n /= 1024; unit++; }\n\
    \treturn (unit && n < 100 ? n.toFixed(1) : count(n)) + \" \" + [\"bytes\", \"KiB\", \"MiB\", \"GiB\", \"TiB\"][unit];\n\
    }\n\
    \n\
    function change(before, after) {\n\
    \tif (before === after) return before ? \"the same\" : \"–\";\n\
    \tif (!before) return \"new\";\n\
    \tconst part = (after - before) / before;\n\
    \treturn (part > 0 ? \"+\" : \"−\") + (Math.abs(part) < 0.0995 ? (100 * Math.abs(part)).toFixed(1) : count(100 * Math.abs(part))) + \" %\";\n\
    }\n\
    \n\
    // Making elements. Texts of others (names, ids) only ever become text nodes.\n\
    \n\
    function filled(it, attributes, inside) {\n\
    \tfor (const [key, value] of Object.entries(attributes)) it.setAttribute(key, value);\n\
    \tit.append(...inside);\n\
    \treturn it;\n\
    }\n\
    const make = (name, attributes = {}, ...inside) => filled(document.createElement(name), attributes, inside);\n\
    const draw = (name, attributes, ...inside) => filled(document.createElementNS(\"http://www.w3.org/2000/svg\", name), attributes, inside);\n\
    \n\
    // A table: a head is a text, or { text, cls }; a cell a text or nodes; its column's class is the head's.\n\
    function table(where, label, heads, rows) {\n\
    \tconst columns = heads.map((it, place) => typeof it === \"string\" ? { text: it, cls: place ? \"n\" : \"\" } : it);\n\
    \tconst body = rows.map(({ cells, cls = \"\" }) => make(\"tr\", { class: cls }, ...cells.map((cell, place) =>\n\
    \t\tmake(place ? \"td\" : \"th\", { class: columns[place].cls, ...place ? {} : { scope: \"row\" } }, ...[cell].flat()))));\n\
    \t$(where).replaceChildren(make(\"table\", { \"aria-label\": label },\n\
    \t\tmake(\"thead\", {}, make(\"tr\", {}, ...columns.map(({ text, cls }) => make(\"th\", { scope: \"col\", class: cls }, text)))), make(\"tbody\", {}, ...body)));\n\
    }\n\
    \n\
    const text = it => ({ text: it, cls: \"\" }), remark = it => ({ text: it, cls: \"says\" }), less = it => ({ text: it, cls: \"n narrow\" });\n\
    \n\
    // The two bars of a row, old above new, against the longest of the column.\n\
    function pair(before, after, most) {\n\
    \tconst svg = draw(\"svg\", { class: \"pair\", viewBox: \"0 0 100 18\", preserveAspectRatio: \"none\", \"aria-hidden\": \"true\" });\n\
    \t[[before, \"--old\", 1], [after, \"--new\", 10]].forEach(([value, colour, y]) => {\n\
    \t\tsvg.append(draw(\"rect\", { x: 0, y, height: 7, width: Math.max(value ? 0.4 : 0, 100 * value / most), fill: `var(${colour})` }));\n\
    \t});\n\
    \treturn svg;\n\
    }\n\
    \n\
    function niceTop(most) {\n\
    \tconst power = 10 ** Math.floor(Math.log10(most));\n\
    \treturn [1, 1.2, 1.6, 2, 2.4, 3, 4, 5, 6, 8, 10].map(it => it * power).find(it => it >= most);\n\
    }\n\
    \n\
    // The parts of the page.\n\
    \n\
    function showHead() {\n\
    \tconst { old, new: next } = told, part = old.kept.spans ? (next.kept.spans - old.kept.spans) / old.kept.spans : next.kept.spans;\n\
    \tconst amount = Math.abs(part) < 0.0005 ? \"the same number of spans\" : old.kept.spans ? `${percent(Math.abs(part))} ${part < 0 ? \"fewer\" : \"more\"} spans` : \"spans, where the old one keeps none\";\n\
    \tconst lost = told.traces.only_old, won = told.traces.only_new;\n\
    \t$(\"headline\").textContent = `It keeps ${amount}: ${count(lost)} ${lost === 1 ? \"trace is\" : \"traces are\"} lost by it, ${count(won)} ${won === 1 ? \"is\" : \"are\"} won.`;\n\
    \tdocument.title = `${old.name} or ${next.name}: tsc compare`;\n\
    \tconst { from_ms, every_ms } = told.over_time, steps = told.over_time.old.length;\n\
    \tconst facts = [[\"old\", make(\"span\", { class: \"old\" }, old.name)], [\"new\", make(\"span\", { class: \"new\" }, next.name)],\n\
    \t\t[\"kept\", steps ? `from ${moment(from_ms)} to ${moment(from_ms + steps * every_ms)}${isWall(from_ms) ? \" UTC\" : \"\"}` : \"nothing\"], [\"by\", `tsc ${told.version}`]];\n\
    \t$(\"facts\").append(...facts.map(([name, value]) => make(\"div\", {}, make(\"dt\", {}, name), make(\"dd\", {}, value))));\n\
    \tfor (const [name, key, worded] of [[\"Traces kept\", \"traces\", count], [\"Spans kept\", \"spans\", count], [\"Bytes kept\", \"bytes\", bytes]]) {\n\
    \t\tconst [before, after] = [old.kept[key], next.kept[key]];\n\
    \t\t$(\"totals\").append(make(\"section\", { class: \"card\" }, make(\"h2\", {}, name), make(\"p\", { class: \"change\" }, change(before, after)),\n\
    \t\t\tmake(\"p\", { class: \"muted\" }, `${worded(before)} became ${worded(after)}`)));\n\
    \t}\n\
    }\n\
    \n\
    // Two bars: all traces, and below it those that one of the two keeps, drawn out, between the brackets of what each keeps.\n\
    function showOverlap() {\n\
    \tconst { both, only_old, only_new, none, unknown } = told.traces, any = Math.max(1, both + only_old + only_new), all = Math.max(1, both + only_old + only_new + none), { width } = page.size;\n\
    \tconst svg = $(\"overlap\"), parts = [], x = share => share * width, small = width < 620;\n\
    \tconst rect = (from, share, y, height, colour) => parts.push(draw(\"rect\", { x: x(from), y, width: Math.max(0, x(share) - 1), height, fill: `var(${colour})` }));\n\
    \tconst label = (at, y, words, anchor = \"middle\", cls = \"\") => parts.push(draw(\"text\", { x: at, y, \"text-anchor\": anchor, class: cls }, words));\n\
    \tlabel(0, 12, `all ${count(all)} traces`, \"start\");\n\
    \trect(0, any / all, 18, 22, \"--both\");\n\
    \trect(any / all, none / all, 18, 22, \"--none\");\n\
    \tlabel(width, 12, `kept by neither: ${count(none)} (${percent(none / all)})`, \"end\", \"strong\");\n\
    \tparts.push(draw(\"path\", { d: `M0 41 L0 76 L${width - 1} 76 L${x(any / all)} 41Z`, fill: \"var(--faint)\" }));\n\
    \tlabel(8, 62, `kept by at least one: ${count(any)} (${percent(any / all)}), drawn out`, \"start\");\n\
    \n\
    \tconst top = 108, tall = 46, shares = [[only_old, \"--old\", \"only old\"], [both, \"--both\", \"both\"], [only_new, \"--new\", \"only new\"]];\n\
    \tconst bracket = (from, to, y, up, colour, words) => {\n\
    \t\tparts.push(draw(\"path\", { d: `M${x(from) + 1} ${y + up} V${y} H${x(to) - 2} V${y + up}`, fill: \"none\", stroke: `var(${colour})`, \"stroke-width\": 2 }));\n\
    \t\tlabel(up > 0 ? x(from) + 2 : x(to) - 2, up > 0 ? y - 6 : y + 17, words, up > 0 ? \"start\" : \"end\", \"strong\");\n\
    \t};\n\
    \tbracket(0, (only_old + both) / any, top - 10, 6, \"--old\", `old keeps ${count(only_old + both)}`);\n\
    \tlet from = 0;\n\
    \tshares.forEach(([value, colour, name]) => {\n\
    \t\trect(from, value / any, top, tall, colour);\n\
    \t\tconst room = x(value / any);\n\
    \t\tif (room > (small ? 74 : 90)) {\n\
    \t\t\tparts.push(draw(\"text\", { x: x(from) + room / 2, y: top + 20, \"text-anchor\": \"middle\", class: \"strong on\" }, name));\n\
    \t\t\tparts.push(draw(\"text\", { x: x(from) + room / 2, y: top + 37, \"text-anchor\": \"middle\", class: \"strong on\" }, count(value)));\n\
    \t\t}\n\
    \t\tfrom += value / any;\n\
    \t});\n\
    \tbracket(only_old / any, 1, top + tall + 10, -6, \"--new\", `new keeps ${count(both + only_new)}`);\n\
    \tsvg.setAttribute(\"viewBox\", `0 0 ${width} 190`);\n\
    \tsvg.setAttribute(\"aria-label\", `Of ${count(all)} traces ${count(both)} are kept by both, ${count(only_old)} by the old alone, ${count(only_new)} by the new alone, ${count(none)} by neither.`);\n\
    \tsvg.replaceChildren(...parts);\n\
    \t$(\"same-share\").textContent = `the two agree on ${percent((both + none) / all)} of the traces` + (unknown ? `; of ${count(unknown)} more it is unknown, since a run had no room for all` : \"\");\n\
    \tconst row = (name, value) => ({ cells: [name, count(value), percent(value / all)] });\n\
    \ttable(\"overlap-table\", \"Traces by who keeps them\", [\"Traces kept by\", \"traces\", \"of all\"], [row(\"both\", both), row(\"the old alone\", only_old), row(\"the new alone\", only_new), row(\"neither\", none)]);\n\
    }\n\
    \n\
    function showOverTime() {\n\
    \tconst { every_ms, from_ms } = told.over_time, { old, next } = rates, svg = $(\"over-time\"), { width } = page.size, height = 280;\n\
    \tif (!old.length) return $(\"moment\").replaceChildren(\"Nothing was kept.\");\n\
    \tconst left = 46, right = width - 6, top = 12, bottom = height - 24, most = niceTop(Math.max(1, ...old, ...next));\n\
    \tconst x = at => left + at / old.length * (right - left), y = value => bottom - value / most * (bottom - top), parts = [];\n\
    \tfor (let step = 0; step <= 4; step++) {\n\
    \t\tconst value = most * step / 4;\n\
    \t\tparts.push(draw(\"line\", { x1: left, x2: right, y1: y(value), y2: y(value), class: step ? \"grid\" : \"axis\" }));\n\
    \t\tparts.push(draw(\"text\", { x: left - 6, y: y(value) + 4, \"text-anchor\": \"end\" }, Number.isInteger(value) ? count(value) : value.toFixed(1)));\n\
    \t}\n\
    \tconst labels = width > 700 ? 8 : 4;\n\
    \tfor (let label = 0; label <= labels; label++) {\n\
    \t\tconst at = old.length * label / labels;\n\
    \t\tparts.push(draw(\"text\", { x: x(at), y: height - 6, \"text-anchor\": label ? label < labels ? \"middle\" : \"end\" : \"start\" }, clock(from_ms + at * every_ms)));\n\
    \t}\n\
    \tconst steps = values => \"M\" + values.map((value, at) => `${x(at).toFixed(1)},${y(value).toFixed(1)} ${x(at + 1).toFixed(1)},${y(value).toFixed(1)}`).join(\" \");\n\
    \tparts.push(draw(\"path\", { d: steps(old), class: \"line-old\" }), draw(\"path\", { d: steps(next), class: \"line-new\" }));\n\
    \tif (page.chosen !== null) parts.push(draw(\"line\", { class: \"cursor\", x1: x(page.chosen + 0.5), x2: x(page.chosen + 0.5), y1: top, y2: bottom }));\n\
    \tsvg.setAttribute(\"viewBox\", `0 0 ${width} ${height}`);\n\
    \tsvg.setAttribute(\"aria-label\", \"Kept spans a second over time, old and new; arrow keys tell single moments, a table is below.\");\n\
    \tsvg.replaceChildren(...parts);\n\
    \tpage.scale = { left, right };\n\
    \tconst mean = values => values.reduce((a, b) => a + b, 0) / values.length;\n\
    \t$(\"moment\").replaceChildren(...page.chosen === null ? [\"mean: \"] : [clock(from_ms + page.chosen * every_ms) + \": \"],\n\
    \t\tmake(\"span\", { class: \"old\" }, `old ${rate(page.chosen === null ? mean(old) : old[page.chosen])}`), \" \", make(\"span\", { class: \"new\" }, `new ${rate(page.chosen === null ? mean(next) : next[page.chosen])}`), \" spans a second\");\n\
    \t$(\"step\").textContent = `each step is the mean of ${apart(every_ms)}; old dashed, new drawn through`;\n\
    }\n\
    \n\
    function showTimes() {\n\
    \tconst { every_ms, from_ms } = told.over_time, { old, next } = rates, each = Math.max(1, Math.ceil(old.length / 24)), rows = [];\n\
    \tconst mean = (values, at) => values.slice(at, at + each).reduce((a, b) => a + b, 0) / values.slice(at, at + each).length;\n\
    \tfor (let at = 0; at < old.length; at += each) rows.push({ cells: [moment(from_ms + at * every_ms), rate(mean(old, at)), rate(mean(next, at)), change(mean(old, at), mean(next, at))] });\n\
    \ttable(\"times\", `Kept spans a second, mean of ${apart(each * every_ms)} each`, [\"from\", \"old\", \"new\", \"change\"], rows);\n\
    }\n\
    \n\
    function showPolicies() {\n\
    \tconst none = { spans: 0, bytes: 0 }, most = key => Math.max(1, ...told.policies.flatMap(it => [it.old?.[key] || 0, it.new?.[key] || 0]));\n\
    \tconst rows = told.policies.map(({ name, old, new: next }) => ({ cells: [\n\
    \t\t[make(\"b\", {}, name), make(\"span\", { class: \"says\" }, !old ? \" in the new alone\" : !next ? \" in the old alone\" : \"\")], pair((old || none).spans, (next || none).spans, most(\"spans\")),\n\
    \t\told ? count(old.spans) : \"–\", next ? count(next.spans) : \"–\", change((old || none).spans, (next || none).spans),\n\
    \t\told ? bytes(old.bytes) : \"–\", next ? bytes(next.bytes) : \"–\", change((old || none).bytes, (next || none).bytes),\n\
    \t] }));\n\
    \tconst { old, new: next } = told, [before, after] = [old.without_policy, next.without_policy];\n\
    \tif (before.spans || after.spans) rows.push({ cells: [make(\"span\", { class: \"says\" }, \"none, or unknown\"), pair(before.spans, after.spans, most(\"spans\")), count(before.spans), count(after.spans), change(before.spans, after.spans), bytes(before.bytes), bytes(after.bytes), change(before.bytes, after.bytes)] });\n\
    \trows.push({ cls: \"sum\", cells: [\"all\", \"\", count(old.kept.spans), count(next.kept.spans), change(old.kept.spans, next.kept.spans), bytes(old.kept.bytes), bytes(next.kept.bytes), change(old.kept.bytes, next.kept.bytes)] });\n\
    \ttable(\"policies\", \"Kept spans and bytes by policy\", [\"Policy\", text(\"kept spans\"), \"old\", \"new\", \"change\", less(\"bytes, old\"), less(\"bytes, new\"), less(\"change\")], rows);\n\
    }\n\
    \n\
    function showServices(where, sign, label) {\n\
    \tconst shown = told.services.filter(it => sign * (it.new - it.old) > 0).sort((a, b) => sign * (b.new - b.old - a.new + a.old)).slice(0, 8);\n\
    \tconst most = Math.max(1, ...shown.flatMap(it => [it.old, it.new]));\n\
    \tif (!shown.length) return $(where).replaceChildren(make(\"p\", { class: \"muted\" }, \"None.\"));\n\
    \ttable(where, label, [\"Service\", text(\"\"), \"old\", \"new\", \"difference\"], shown.map(it => ({ cells: [it.name || \"(no service.name)\", pair(it.old, it.new, most), count(it.old), count(it.new), signed(it.new - it.old)] })));\n\
    }\n\
    \n\
    // How a trace ended, by the words of the lines of decisions.\n\
    const why = { wait: \"after its wait\", rootWait: \"after its root\", size: \"too big\", close: \"at the close\" };\n\
    function ended(side) {\n\
    \tif (!side) return [make(\"span\", { class: \"says\" }, \"never ended\")];\n\
    \tconst verdict = side.verdict === \"sampled\" ? make(\"b\", {}, \"kept\") : side.verdict === \"evicted\" ? \"evicted undecided\" : \"not kept\";\n\
    \tconst earlier = side.kept && side.verdict !== \"sampled\" ? \", kept earlier\" : \"\";\n\
    \treturn [verdict, (side.policy === null ? \"\" : ` by ${side.policy}`) + earlier, make(\"br\"), make(\"span\", { class: \"says\" }, [`${count(side.spans)} ${side.spans === 1 ? \"span\" : \"spans\"}, ${clock(side.moment_ms)}`, side.by && why[side.by]].filter(Boolean).join(\", \"))];\n\
    }\n\
    \n\
    function showDiffering() {\n\
    \tconst which = $(\"which\").value, shown = told.differ.filter(it => !which || (it.old?.kept ? \"old\" : \"new\") === which);\n\
    \tconst all = told.traces.only_old + told.traces.only_new;\n\
    \t$(\"differ-of\").textContent = told.differ.length < all ? `the first ${count(told.differ.length)} of ${count(all)}` : `all ${count(all)}`;\n\
    \tif (!shown.length) return $(\"differ\").replaceChildren(make(\"p\", { class: \"muted\" }, \"None.\"));\n\
    \ttable(\"differ\", \"Traces that one alone keeps\", [\"Trace\", text(\"old\"), text(\"new\")], shown.map(it => ({ cells: [make(\"span\", { class: \"id\" }, it.trace_id), ended(it.old), ended(it.new)] })));\n\
    }\n\
    \n\
    function choose(at) {\n\
    \tpage.chosen = at === null ? null : Math.max(0, Math.min(rates.old.length - 1, at));\n\
    \tshowOverTime();\n\
    }\n\
    \n\
    function listen() {\n\
    \tconst svg = $(\"over-time\");\n\
    \tsvg.addEventListener(\"pointermove\", event => choose(Math.floor((event.offsetX - page.scale.left) / (page.scale.right - page.scale.left) * rates.old.length)));\n\
    \tsvg.addEventListener(\"pointerleave\", () => choose(null));\n\
    \tsvg.addEventListener(\"blur\", () => choose(null));\n\
    \tsvg.addEventListener(\"keydown\", event => {\n\
    \t\tconst last = rates.old.length - 1, to = { ArrowLeft: (page.chosen ?? last + 1) - 1, ArrowRight: (page.chosen ?? -1) + 1, Home: 0, End: last }[event.key];\n\
    \t\tif (event.key === \"Escape\") choose(null);\n\
    \t\tif (to !== undefined) { event.preventDefault(); choose(to); }\n\
    \t});\n\
    \t$(\"which\").addEventListener(\"change\", showDiffering);\n\
    \tnew ResizeObserver(([{ contentRect: { width } }]) => {\n\
    \t\tif (!width) return;\n\
    \t\tpage.size = { width };\n\
    \t\tshowOverlap();\n\
    \t\tshowOverTime();\n\
    \t}).observe(svg.parentElement.querySelector(\".head\"));\n\
    }\n\
    \n\
    showHead();\n\
    showTimes();\n\
    showPolicies();\n\
    showServices(\"losers\", -1, \"Services that lose most\");\n\
    showServices(\"gainers\", 1, \"Services that gain most\");\n\
    showDiffering();\n\
    showOverlap();\n\
    showOverTime();\n\
    listen();\n\
    </script>\n\
    </body>\n\
    </html>\n";
