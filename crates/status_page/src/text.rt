//! The page and its fields: written by tools/page.py from page/status.html.

/// The page, in HTML.
pub(crate) const TEXT: &str = "<!doctype html>\n\
    <html lang=\"en\" data-feeds=\"metrics status decisions\">\n\
    <head>\n\
    <meta charset=\"utf-8\">\n\
    <meta name=\"viewport\" content=\"width=device-width, initial-scale=1\">\n\
    <meta name=\"color-scheme\" content=\"light dark\">\n\
    <title>tsc</title>\n\
    <link rel=\"icon\" href=\"data:,\">\n\
    <style>\n\
    :root {\n\
    \tcolor-scheme: light dark;\n\
    \t--page: #f4f5f6; --card: #fff; --line: #d9dde2; --faint: #eceef1; --text: #1a1e23; --muted: #56606b;\n\
    \t--link: #0b5cad; --good: #1a7048; --warn: #8a5300; --bad: #b3261e; --warn-back: #fff6e3; --bad-back: #fdeeec; --info-back: #eaf2fb;\n\
    \t--handed: #0072b2; --against: #a8b1bb; --late: #cfd5db; --waits: #56b4e9;\n\
    \t--evicted: #e69f00; --queue: #d55e00; --memory: #7f2f8e; --ids: #cc79a7; --backend: #7a1a12;\n\
    }\n\
    @media (prefers-color-scheme: dark) {\n\
    \t:root {\n\
    \t\t--page: #121518; --card: #1b1f24; --line: #333a42; --faint: #272c33; --text: #e8ebee; --muted: #a4aeb9;\n\
    \t\t--link: #7ab8f5; --good: #5cc593; --warn: #f0b64a; --bad: #ff8a80; --warn-back: #2e2613; --bad-back: #371d1b; --info-back: #182a3d;\n\
    \t\t--handed: #3d9bdc; --against: #65707c; --late: #434c56; --waits: #a6d8f5;\n\
    \t\t--evicted: #f0b429; --queue: #f0763a; --memory: #bb7fd0; --ids: #e59cc4; --backend: #e8503f;\n\
    \t}\n\
    }\n\
    * { box-sizing: border-box; }\n\
    body { margin: 0; background: var(--page); color: var(--text); font: 15px/1.45 Inter, system-ui, \"Segoe UI\", Roboto, sans-serif; font-variant-numeric: tabular-nums; }\n\
    .wide { max-width: 1240px; margin: 0 auto; padding: 0 20px; }\n\
    h1, h2, h3, p, dl, dd { margin: 0; }\n\
    h1 { font-size: 20px; }\n\
    h2 { font-size: 16px; }\n\
    h3 { font-size: 14px; }\n\
    a { color: var(--link); }\n\
    code, .id { font: 13px/1.4 ui-monospace, Menlo, Consolas, monospace; }\n\
    button, input, select { font: inherit; color: inherit; background: var(--card); border: 1px solid var(--muted); border-radius: 6px; padding: 5px 12px; min-height: 34px; }\n\
    button { cursor: pointer; }\n\
    :focus-visible { outline: 2px solid var(--link); outline-offset: 2px; }\n\
    .muted, .says, tr.zero > *, dt { color: var(--muted); }\n\
    .unseen { position: absolute; width: 1px; height: 1px; overflow: hidden; clip-path: inset(50%); white-space: nowrap; }\n\
    [hidden] { display: none !important; }\n\
    \n\
    header { background: var(--card); border-bottom: 1px solid var(--line); }\n\
    .top { display: flex; flex-wrap: wrap; align-items: center; gap: 6px 16px; padding-top: 14px; }\n\
    .top dl { display: flex; flex-wrap: wrap; gap: 2px 18px; margin-left: auto; font-size: 14px; }\n\
    .top dl div { display: flex; gap: 6px; }\n\
    #state { display: inline-flex; align-items: center; gap: 8px; font-weight: 600; }\n\
    #state::before { content: \"\"; width: 11px; height: 11px; border-radius: 50%; background: currentColor; }\n\
    #state[data-is=running] { color: var(--good); }\n\
    #state[data-is=closing] { color: var(--warn); }\n\
    #state[data-is=closing]::before { border-radius: 2px; }\n\
    #state[data-is=gone] { color: var(--bad); }\n\
    #state[data-is=gone]::before { border-radius: 0; clip-path: polygon(50% 0, 100% 100%, 0 100%); }\n\
    nav { display: flex; gap: 22px; padding-top: 8px; }\n\
    nav a { padding: 8px 0; color: var(--muted); text-decoration: none; border-bottom: 3px solid transparent; }\n\
    nav a[aria-current] { color: var(--text); font-weight: 600; border-color: var(--link); }\n\
    \n\
    main.wide { padding-top: 18px; padding-bottom: 40px; }\n\
    .view { display: grid; gap: 16px; grid-template-columns: minmax(0, 1fr); }\n\
    .card { background: var(--card); border: 1px solid var(--line); border-radius: 10px; padding: 16px 18px; min-width: 0; }\n\
    .head { display: flex; flex-wrap: wrap; align-items: baseline; gap: 2px 12px; margin-bottom: 10px; }\n\
    .head .muted { font-size: 14px; }\n\
    .head .right { margin-left: auto; }\n\
    .two, .four { display: grid; gap: 16px; grid-template-columns: repeat(2, minmax(0, 1fr)); }\n\
    .four { grid-template-columns: repeat(4, minmax(0, 1fr)); }\n\
    .gone .figures { filter: grayscale(1); }\n\
    .blank .figures { display: none; }\n\
    \n\
    #notices { display: grid; gap: 8px; grid-template-columns: repeat(auto-fit, minmax(min(100%, 500px), 1fr)); }\n\
    #notice-calm, #notice-past { grid-column: 1 / -1; color: var(--muted); }\n\
    #notice-calm { color: var(--good); font-weight: 600; padding: 2px; }\n\
    .notice { border: 1px solid var(--line); border-left: 5px solid var(--muted); border-radius: 8px; padding: 10px 14px; background: var(--card); }\n\
    .notice[data-level=bad] { border-left-color: var(--bad); background: var(--bad-back); }\n\
    .notice[data-level=warn] { border-left-color: var(--warn); background: var(--warn-back); }\n\
    .notice[data-level=note] { border-left-color: var(--link); background: var(--info-back); }\n\
    .notice b { margin-right: 6px; }\n\
    \n\
    .sum { display: flex; flex-wrap: wrap; gap: 6px 14px; }\n\
    .sum div { display: grid; grid-template-columns: auto auto; column-gap: 14px; }\n\
    .sum div::before { content: attr(data-sign); grid-row: 2; font-size: 22px; line-height: 1.45; color: var(--muted); }\n\
    .sum div:first-child { column-gap: 0; }\n\
    .sum dt { grid-column: 2; font-size: 14px; white-space: nowrap; }\n\
    .sum dd { grid-column: 2; }\n\
    .sum dd, .big { font-size: 26px; line-height: 1.25; font-weight: 600; }\n\
    .bars { display: block; width: 100%; height: 34px; margin: 10px 0 6px; }\n\
    \n\
    .chart { display: grid; gap: 6px 24px; grid-template-columns: minmax(0, 1fr) 410px; }\n\
    .chart svg { display: block; width: 100%; height: 300px; touch-action: pan-y; }\n\
    svg text { fill: var(--muted); font-size: 12px; }\n\
    .grid { stroke: var(--line); }\n\
    .axis { stroke: var(--muted); }\n\
    .received { stroke: var(--text); stroke-width: 1.6; fill: none; stroke-linejoin: round; }\n\
    .cursor { stroke: var(--text); stroke-dasharray: 3 3; }\n\
    .silent { fill: var(--faint); }\n\
    .spark { display: block; width: 100%; height: 44px; margin-top: 8px; }\n\
    .spark * { vector-effect: non-scaling-stroke; }\n\
    .spark path { fill: none; stroke: var(--handed); stroke-width: 1.6; }\n\
    .spark .limit { stroke: var(--bad); stroke-dasharray: 4 3; }\n\
    \n\
    table { border-collapse: collapse; width: 100%; font-size: 14px; }\n\
    th { font-weight: 400; text-align: left; color: var(--muted); vertical-align: bottom; }\n\
    th, td { padding: 5px 14px 5px 0; border-bottom: 1px solid var(--faint); }\n\
    tr > :last-child { padding-right: 0; }\n\
    tbody th, td { color: var(--text); vertical-align: top; }\n\
    tbody tr:last-child > * { border-bottom: 0; }\n\
    .n { text-align: right; white-space: nowrap; }\n\
    tr.sumrow > * { border-top: 1px solid var(--muted); font-weight: 600; }\n\
    .key { display: inline-block; width: 11px; height: 11px; border-radius: 2px; margin-right: 8px; }\n\
    .key.line { height: 0; border-top: 2px solid var(--text); border-radius: 0; vertical-align: 4px; }\n\
    .bar { display: flex; height: 8px; margin-top: 4px; background: var(--faint); border-radius: 2px; overflow: hidden; }\n\
    .bar i { height: 100%; background: var(--handed); }\n\
    .bar i.against { background: var(--against); }\n\
    tr.group > * { padding-top: 18px; }\n\
    .part { color: var(--muted); margin-right: 4px; }\n\
    .scroll { overflow-x: auto; }\n\
    details { margin-top: 10px; font-size: 14px; }\n\
    summary { cursor: pointer; color: var(--link); min-height: 24px; }\n\
    fieldset { border: 0; margin: 0; padding: 0; font-size: 14px; }\n\
    fieldset label { display: inline-flex; align-items: center; gap: 6px; min-height: 24px; margin-left: 14px; }\n\
    fieldset input { margin: 0; min-height: 0; }\n\
    #found { outline: 0; margin-top: 10px; }\n\
    form { display: flex; flex-wrap: wrap; gap: 8px; align-items: end; }\n\
    form label { flex: 1 1 320px; display: grid; gap: 3px; font-size: 14px; }\n\
    .kept { color: var(--handed); font-weight: 600; }\n\
    .verdict { font-size: 20px; font-weight: 600; }\n\
    .facts { display: flex; flex-wrap: wrap; gap: 4px 26px; margin: 8px 0 12px; }\n\
    .facts dt { font-size: 13px; }\n\
    @media (max-width: 1000px) {\n\
    \t.chart, .two { grid-template-columns: minmax(0, 1fr); }\n\
    \t.four { grid-template-columns: repeat(2, minmax(0, 1fr)); }\n\
    }\n\
    @media (max-width: 600px) {\n\
    \t.wide { padding-left: 12px; padding-right: 12px; }\n\
    \t.card { padding: 14px 12px; }\n\
    \t.top dl { margin-left: 0; width: 100%; }\n\
    \t.chart svg { height: 220px; }\n\
    \t.four { gap: 10px; }\n\
    \t.big { font-size: 21px; }\n\
    \t.sum { display: block; }\n\
    \t.sum div { grid-template-columns: 14px 1fr auto; align-items: baseline; column-gap: 8px; }\n\
    \t.sum div::before { grid-row: 1; font-size: 18px; }\n\
    \t.sum dd { grid-column: 3; font-size: 20px; }\n\
    \tth, td { padding-right: 9px; }\n\
    \t.narrow { display: none; }\n\
    \tthead .n { white-space: normal; }\n\
    \t.says { display: block; }\n\
    }\n\
    </style>\n\
    </head>\n\
    <body class=\"blank\">\n\
    <header>\n\
    \t<div class=\"wide\">\n\
    \t\t<div class=\"top\">\n\
    \t\t\t<h1>tsc</h1>\n\
    \t\t\t<span id=\"state\" role=\"status\" data-is=\"asking\">Asking …</span>\n\
    \t\t\t<dl>\n\
    \t\t\t\t<div><dt>takes requests at</dt><dd id=\"listen\">–</dd></div>\n\
    \t\t\t\t<div><dt>up</dt><dd id=\"uptime\">–</dd></div>\n\
    \t\t\t\t<div><dt>version</dt><dd id=\"version\">–</dd></div>\n\
    \t\t\t\t<div><dt>told at</dt><dd id=\"told\">–</dd></div>\n\
    \t\t\t</dl>\n\
    \t\t\t<button id=\"pause\" type=\"button\" aria-pressed=\"false\">Pause</button>\n\
    \t\t</div>\n\
    \t\t<nav aria-label=\"Views\">\n\
    \t\t\t<a href=\"#now\">Now</a>\n\
    \t\t\t<a href=\"#decisions\">Why was it kept?</a>\n\
    \t\t\t<a href=\"#settings\">Settings</a>\n\
    \t\t</nav>\n\
    \t</div>\n\
    </header>\n\
    \n\
    <main class=\"wide\">\n\
    \t<noscript><p>Scripts are off. The numbers as text: <a href=\"metrics\">metrics</a>.</p></noscript>\n\
    \n\
    \t<div class=\"view\" id=\"now\">\n\
    \t\t<section>\n\
    \t\t\t<h2 class=\"unseen\">What needs you</h2>\n\
    \t\t\t<p class=\"unseen\" id=\"spoken\" role=\"status\"></p>\n\
    \t\t\t<div id=\"notices\"></div>\n\
    \t\t</section>\n\
    \n\
    \t\t<section class=\"card figures\">\n\
    \t\t\t<div class=\"head\"><h2>Every span has a place</h2><p class=\"muted\" id=\"adds-up\"></p></div>\n\
    \t\t\t<dl class=\"sum\" id=\"sum\"></dl>\n\
    \t\t\t<svg class=\"bars\" id=\"bars\" role=\"img\" preserveAspectRatio=\"none\" viewBox=\"0 0 1000 34\"></svg>\n\
    \t\t</section>\n\
    \n\
    \t\t<section class=\"card figures\">\n\
    \t\t\t<div class=\"head\"><h2>Spans a second, last ten minutes</h2><p class=\"muted\">in (line), and what became of spans (areas)</p></div>\n\
    \t\t\t<div class=\"chart\">\n\
    \t\t\t\t<svg id=\"chart\" tabindex=\"0\" role=\"img\" aria-label=\"Spans a second\"></svg>\n\
    \t\t\t\t<div class=\"scroll\" id=\"legend\"></div>\n\
    \t\t\t</div>\n\
    \t\t\t<details><summary>The chart as a table, minute by minute</summary>\n\
    \t\t\t\t<div class=\"scroll\" id=\"minutes\"></div>\n\
    \t\t\t</details>\n\
    \t\t</section>\n\
    \n\
    \t\t<div class=\"four figures\" id=\"gauges\"></div>\n\
    \n\
    \t\t<section class=\"card figures\">\n\
    \t\t\t<div class=\"head\"><h2>Which policy decides</h2><p class=\"muted\" id=\"kept-share\"></p>\n\
    \t\t\t\t<fieldset class=\"right\" id=\"over\"><legend class=\"unseen\">Counted over</legend>\n\
    \t\t\t\t\t<label><input type=\"radio\" name=\"over\" value=\"start\" checked> since the start</label>\n\
    \t\t\t\t\t<label><input type=\"radio\" name=\"over\" value=\"window\"> <span id=\"window-name\">last ten minutes</span></label>\n\
    \t\t\t\t</fieldset></div>\n\
    \t\t\t<div class=\"scroll\" id=\"policies\"></div>\n\
    \t\t</section>\n\
    \n\
    \t\t<div class=\"two figures\">\n\
    \t\t\t<section class=\"card\">\n\
    \t\t\t\t<div class=\"head\"><h2>What waits, by shard</h2><p class=\"muted\" id=\"queue-room\"></p></div>\n\
    \t\t\t\t<div class=\"scroll\" id=\"shards\"></div>\n\
    \t\t\t</section>\n\
    \t\t\t<div class=\"view\">\n\
    \t\t\t\t<section class=\"card\">\n\
    \t\t\t\t\t<div class=\"head\"><h2>Answers to senders</h2><p class=\"muted\" id=\"no-answers\"></p></div>\n\
    \t\t\t\t\t<div class=\"scroll\" id=\"answers\"></div>\n\
    \t\t\t\t</section>\n\
    \t\t\t\t<section class=\"card\">\n\
    \t\t\t\t\t<div class=\"head\"><h2>What is handed over</h2><p class=\"muted\" id=\"output-to\"></p></div>\n\
    \t\t\t\t\t<div class=\"scroll\" id=\"output\"></div>\n\
    \t\t\t\t</section>\n\
    \t\t\t</div>\n\
    \t\t</div>\n\
    \t</div>\n\
    \n\
    \t<div class=\"view\" id=\"decisions\" hidden>\n\
    \t\t<section class=\"card\">\n\
    \t\t\t<div class=\"head\"><h2>Why was this trace kept, or not?</h2></div>\n\
    \t\t\t<p id=\"no-decisions\" class=\"muted\">This collector doesn't tell single decisions, only how many each policy takes: <a href=\"#now\">Now</a>.</p>\n\
    \t\t\t<form id=\"ask\">\n\
    \t\t\t\t<label>Trace id, 32 hex digits <input id=\"trace-id\" class=\"id\" autocomplete=\"off\" spellcheck=\"false\" aria-describedby=\"ask-fault\"></label>\n\
    \t\t\t\t<button>Look it up</button>\n\
    \t\t\t</form>\n\
    \t\t\t<p id=\"ask-fault\" role=\"alert\" class=\"muted\"></p>\n\
    \t\t\t<div id=\"found\" tabindex=\"-1\"></div>\n\
    \t\t</section>\n\
    \t\t<section class=\"card\" id=\"last\">\n\
    \t\t\t<div class=\"head\"><h2>Last decided traces</h2><p class=\"muted\" id=\"last-told\"></p>\n\
    \t\t\t\t<div class=\"right\"><label>Show <select id=\"which\"><option value=\"\">all</option><option value=\"kept\">kept</option><option value=\"not_kept\">not kept</option></select></label> <button id=\"again\" type=\"button\">Read again</button></div></div>\n\
    \t\t\t<div class=\"scroll\" id=\"decided\"></div>\n\
    \t\t</section>\n\
    \t</div>\n\
    \n\
    \t<div class=\"view\" id=\"settings\" hidden>\n\
    \t\t<section class=\"card\">\n\
    \t\t\t<div class=\"head\"><h2>Settings in force</h2><p class=\"muted\">as read at the start (<a href=\"config\">as a file</a>); bold: not the default</p></div>\n\
    \t\t\t<div class=\"scroll\" id=\"in-force\"></div>\n\
    \t\t</section>\n\
    \t</div>\n\
    </main>\n\
    \n\
    <script>\n\
    \"use strict\";\n\
    // Reads /metrics and /healthz every two seconds, and keeps ten minutes of numbers.\n\
    const FEEDS = new Set(document.documentElement.dataset.feeds.split(\" \"));\n\
    const EVERY = 2000, WINDOW = 600000, COLUMN = 5000, PATIENCE = 4000, AGAIN = 700;\n\
    // What becomes of spans, from the bottom of the chart upwards.\n\
    const PLACES = [\n\
    \t[\"handed\", \"handed over\", \"--handed\"],\n\
    \t[\"not_sampled\", \"decided against\", \"--against\"],\n\
    \t[\"late_not_sampled\", \"late, decided against\", \"--late\"],\n\
    \t[\"invalid_id\", \"lost: invalid id\", \"--ids\"],\n\
    \t[\"evicted\", \"lost: left undecided\", \"--evicted\"],\n\
    \t[\"queue_full\", \"lost: queue full\", \"--queue\"],\n\
    \t[\"no_memory\", \"lost: no memory\", \"--memory\"],\n\
    \t[\"exporter_down\", \"lost: output failed\", \"--backend\"],\n\
    ];\n\
    const REASONS = PLACES.slice(1).map(it => it[0]), LOST = REASONS.slice(2);\n\
    const MEANING = {\n\
    \t200: \"taken\", 400: \"no OTLP in JSON, or no HTTP/1.1\", 404: \"another path than /v1/traces\", 405: \"not POST\", 408: \"took more than ten seconds to come\",\n\
    \t413: \"larger than 4 MiB\", 415: \"not JSON, or packed in a way that isn't taken\", 431: \"head too large\", 503: \"busy or closing: send again\",\n\
    };\n\
    \n\
    const page = { samples: [], health: \"\", goneSince: 0, restartedAt: 0, chosen: null, spent: [], chartSize: { width: 700, height: 300 } };\n\
    const $ = id => document.getElementById(id);\n\
    \n\
    const whole = new Intl.NumberFormat(\"en\", { maximumFractionDigits: 0 });\n\
    const count = n => whole.format(n);\n\
    const rate = n => n && n < 9.95 ? n < 0.05 ? \"<0.1\" : n.toFixed(1) : count(n);\n\
    const spansOf = n => count(n) + (n === 1 ? \" span\" : \" spans\");\n\
    const percent = part => part && part < 0.0005 ? \"<0.1 %\" : (100 * part).toFixed(1) + \" %\";\n\
    const tenth = n => Math.round(10 * n) / 10;\n\
    const clock = ms => new Date(ms).toLocaleTimeString(\"en-GB\");\n\
    \n\
    function bytes(n) {\n\
    \tlet unit = 0;\n\
    \twhile (n >= 10000 && unit < 4) { n /= 1024; unit++; }\n\
    \treturn (unit && n < 10 ? n.toFixed(1) : count(n)) + \" \" + [\"bytes\", \"KiB\", \"MiB\", \"GiB\", \"TiB\"][unit];\n\
    }\n\
    \n\
    function lasting(ms) {\n\
    \tif (ms < 1000) return count(ms) + \" ms\";\n\
    \tconst s = ms / 1000;\n\
    \tif (s < 60) return +s.toFixed(s < 10 ? 1 : 0) + \" s\";\n\
    \tconst [big, name, small, less] = s < 3600 ? [60, \"min\", 1, \"s\"] : s < 86400 ? [3600, \"h\", 60, \"min\"] : [86400, \"d\", 3600, \"h\"], rest = Math.floor(s % big / small);\n\
    \treturn Math.floor(s / big) + \" \" + name + (rest ? ` ${rest} ${less}` : \"\");\n\
    }\n\
    \n\
    // Elements. Texts of others (names, ids) only ever become text nodes.\n\
    \n\
    function filled(it, attributes, inside) {\n\
    \tfor (const [key, value] of Object.entries(attributes)) it.setAttribute(key, value);\n\
    \tit.append(...inside);\n\
    \treturn it;\n\
    }\n\
    const make = (name, attributes = {}, ...inside) => filled(document.createElement(name), attributes, inside);\n\
    const draw = (name, attributes, ...inside) => filled(document.createElementNS(\"http://www.w3.org/2000/svg\", name), attributes, inside);\n\
    \n\
    function say(where, text) {\n\
    \tconst it = typeof where === \"string\" ? $(where) : where;\n\
    \tif (it.textContent !== text) it.textContent = text;\n\
    }\n\
    \n\
    // A text in which what stands between backticks is code.\n\
    const worded = text => text.split(\"`\").map((piece, at) => at % 2 ? make(\"code\", {}, piece) : piece);\n\
    \n\
    // Makes a table, or brings it up to date. A row is { cells, cls }; a cell is a text, or what `piecesOf` and `row` look for. One that is as it\n\
    // was is left alone.\n\
    function table(where, label, heads, rows) {\n\
    \tif (!where.firstChild) where.append(make(\"table\", { \"aria-label\": label }, make(\"thead\", {}, make(\"tr\")), make(\"tbody\")));\n\
    \tconst { tHead, tBodies: [body] } = where.firstChild;\n\
    \tconst row = (tr, cells, tag) => {\n\
    \t\twhile (tr.cells.length > cells.length) tr.lastChild.remove();\n\
    \t\tcells.forEach((cell, place) => {\n\
    \t\t\tconst td = tr.cells[place] || tr.appendChild(make(place ? tag : \"th\", { scope: tag === \"td\" ? \"row\" : \"col\" }));\n\
    \t\t\tconst told = JSON.stringify(cell);\n\
    \t\t\tif (td.told === told) return;\n\
    \t\t\ttd.told = told;\n\
    \t\t\tconst it = typeof cell === \"object\" ? cell : { text: cell };\n\
    \t\t\ttd.className = it.cls ?? (place ? \"n\" : \"\");\n\
    \t\t\ttd.colSpan = it.span || 1;\n\
    \t\t\ttd.replaceChildren(...piecesOf(it));\n\
    \t\t});\n\
    \t};\n\
    \trow(tHead.rows[0], heads.map((text, place) => ({ text, cls: rows.at(-1)?.cells[place]?.cls })), \"th\");\n\
    \twhile (body.rows.length > rows.length) body.lastChild.remove();\n\
    \trows.forEach(({ cells, cls = \"\" }, at) => {\n\
    \t\tconst tr = body.rows[at] || body.appendChild(make(\"tr\"));\n\
    \t\tif (tr.className !== cls) tr.className = cls;\n\
    \t\trow(tr, cells, \"td\");\n\
    \t});\n\
    \treturn where;\n\
    }\n\
    \n\
    function piecesOf(it) {\n\
    \tconst pieces = [], wrap = it.strong ? \"b\" : it.code ? \"code\" : it.kind ? \"span\" : \"\";\n\
    \tif (it.part) {\n\
    \t\tpieces.push(make(\"span\", { class: \"part\", \"aria-hidden\": \"true\" }, \"└\"));\n\
    \t\tpieces[0].style.marginLeft = 24 * it.part - 6 + \"px\";\n\
    \t}\n\
    \tif (it.key !== undefined) pieces.push(swatch(it.key));\n\
    \tpieces.push(wrap ? make(wrap, it.kind ? { class: it.kind } : {}, it.text) : it.text || \"\");\n\
    \tif (it.id) pieces.push(make(\"a\", { class: \"id\", href: \"#trace=\" + it.id, title: it.id }, it.id.slice(0, 8) + \"…\"));\n\
    \tif (it.says) pieces.push(make(\"span\", { class: \"says\" }, \" \" + it.says));\n\
    \tif (it.bar) pieces.push(bar(...it.bar));\n\
    \treturn pieces;\n\
    }\n\
    \n\
    function swatch(colour) {\n\
    \tconst it = make(\"i\", { class: \"key\", \"aria-hidden\": \"true\" });\n\
    \tif (colour) it.style.background = `var(${colour})`;\n\
    \telse it.className = \"key line\";\n\
    \treturn it;\n\
    }\n\
    \n\
    function bar(...shares) {\n\
    \tconst it = make(\"span\", { class: \"bar\", \"aria-hidden\": \"true\" });\n\
    \tfor (const [share, cls] of shares) {\n\
    \t\tconst piece = make(\"i\", cls ? { class: cls } : {});\n\
    \t\tpiece.style.width = 100 * Math.min(share, 1) + \"%\";\n\
    \t\tit.append(piece);\n\
    \t}\n\
    \treturn it;\n\
    }\n\
    \n\
    const PLAIN = {\n\
    \ttsc_spans_received_total: \"received\", tsc_spans_handed_total: \"handed\", tsc_spans_waiting: \"waiting\", tsc_connections_open: \"connections\",\n\
    \ttsc_uptime_seconds: \"uptime\", process_resident_memory_bytes: \"memory\", tsc_lines_total: \"lines\", tsc_output_bytes_total: \"bytesOut\",\n\
    \ttsc_spans_rejected_total: \"rejected\",\n\
    };\n\
    const GROUPS = { tsc_spans_dropped_total: \"dropped\", tsc_requests_total: \"answers\", tsc_export_attempts_total: \"attempts\" };\n\
    const OF_SHARDS = { tsc_shard_queue_items: \"queue\", tsc_shard_traces_waiting: \"traces\", tsc_shard_spans_waiting: \"spans\" };\n\
    \n\
    // What stands for a policy: its name, or where that is empty its place in the configuration; for no policy neither.\n\
    const deciderKey = (name, place) => JSON.stringify([name, name || place === undefined ? null : Number(place)]);\n\
    \n\
    function readMetrics(text) {\n\
    \tconst told = { received: 0, handed: 0, waiting: 0, dropped: Object.fromEntries(REASONS.map(it => [it, 0])), answers: {}, attempts: {}, decided: new Map(), shards: [] };\n\
    \tfor (const [, name, inner, digits] of text.matchAll(/^(\\w+)(?:\\{(.*)\\})? (\\S+)$/gm)) {\n\
    \t\tconst value = Number(digits), labels = {};\n\
    \t\tfor (const [, key, quoted] of (inner || \"\").matchAll(/(\\w+)=\"((?:[^\"\\\\]|\\\\.)*)\"/g)) {\n\
    \t\t\tlabels[key] = quoted.replace(/\\\\(.)/g, (_, it) => it === \"n\" ? \"\\n\" : it);\n\
    \t\t}\n\
    \t\tif (PLAIN[name]) told[PLAIN[name]] = value;\n\
    \t\telse if (GROUPS[name]) told[GROUPS[name]][Object.values(labels)[0]] = value;\n\
    \t\telse if (OF_SHARDS[name]) (told.shards[labels.shard] ??= {})[OF_SHARDS[name]] = value;\n\
    \t\telse if (name === \"tsc_build_info\") told.version = labels.version;\n\
    \t\telse if (name === \"tsc_traces_decided_total\") {\n\
    \t\t\tconst key = deciderKey(labels.policy, labels.place);\n\
    \t\t\tif (!told.decided.has(key)) told.decided.set(key, { sampled: 0, not_sampled: 0 });\n\
    \t\t\ttold.decided.get(key)[labels.decision] = value;\n\
    \t\t}\n\
    \t}\n\
    \treturn told;\n\
    }\n\
    \n\
    // Reads TOML as /config writes it: tables, lists of tables, and keys with a text, a number, true, false or a list.\n\
    function readToml(text) {\n\
    \tconst root = {}, quotes = /\"\"\"\\n?((?:\\\\[^]|[^\\\\])*?)\"\"\"(?!\")|'''\\n?([^]*?)'''(?!')|\"((?:\\\\.|[^\"\\\\])*)\"|'([^']*)'/y;\n\
    \tlet at = 0, table = root;\n\
    \tconst next = pattern => {\n\
    \t\tpattern.lastIndex = at;\n\
    \t\tconst found = pattern.exec(text);\n\
    \t\tif (found) at = pattern.lastIndex;\n\
    \t\treturn found;\n\
    \t};\n\
    \tconst unescaped = raw => raw.replace(/\\\\(?:u(\\w{4})|U(\\w{8})|([^]))/g, (_, four, eight, one) =>\n\
    \t\tone ? { n: \"\\n\", t: \"\\t\", r: \"\\r\", b: \"\\b\", f: \"\\f\" }[one] ?? one : String.fromCodePoint(parseInt(four || eight, 16)));\n\
    \tconst quoted = () => {\n\
    \t\tconst it = next(quotes);\n\
    \t\treturn it && (it[2] ?? it[4] ?? unescaped(it[1] ?? it[3]));\n\
    \t};\n\
    \tconst path = () => {\n\
    \t\tconst keys = [];\n\
    \t\tdo keys.push(quoted() ?? next(/[\\w-]+/y)[0]); while (next(/\\./y));\n\
    \t\treturn keys;\n\
    \t};\n\
    \tconst value = () => {\n\
    \t\tif (next(/\\[\\s*/y)) {\n\
    \t\t\tconst list = [];\n\
    \t\t\tfor (; !next(/\\s*\\]/y); next(/\\s*,\\s*/y)) list.push(value());\n\
    \t\t\treturn list;\n\
    \t\t}\n\
    \t\tconst it = quoted() ?? next(/[^\\s,\\]]+/y);\n\
    \t\treturn typeof it === \"string\" ? it : it[0] === \"true\" || it[0] !== \"false\" && Number(it[0]);\n\
    \t};\n\
    \tconst walk = keys => keys.reduce((it, key) => {\n\
    \t\tconst inner = it[key] ??= {};\n\
    \t\treturn Array.isArray(inner) ? inner.at(-1) : inner;\n\
    \t}, root);\n\
    \twhile (next(/\\s*/y), at < text.length) {\n\
    \t\tconst open = next(/\\[\\[?/y)?.[0], keys = path(), last = keys.pop();\n\
    \t\tif (!open) {\n\
    \t\t\tnext(/ = /y);\n\
    \t\t\ttable[last] = value();\n\
    \t\t} else if (open === \"[\") table = walk([...keys, last]);\n\
    \t\telse (walk(keys)[last] ??= []).push(table = {});\n\
    \t\tnext(/\\]+/y);\n\
    \t}\n\
    \treturn root;\n\
    }\n\
    \n\
    async function get(target) {\n\
    \tconst answer = await fetch(target, { cache: \"no-store\", signal: AbortSignal.timeout(PATIENCE) });\n\
    \tif (!answer.ok && target !== \"healthz\") throw Error(target + \" is answered \" + answer.status);\n\
    \treturn answer.text();\n\
    }\n\
    \n\
    const overShards = (told, key) => told.shards.reduce((sum, it) => sum + it[key], 0);\n\
    const placeOf = (told, place) => place === \"handed\" ? told.handed : told.dropped[place];\n\
    const latest = () => page.samples.findLast(it => it.told);\n\
    \n\
    // The oldest sample of the present run of the collector that is at most so old; a brief one, of the history, tells of spans alone.\n\
    function since(ms, brief = false) {\n\
    \tconst last = latest();\n\
    \treturn page.samples.find(it => it.told && it.run === last.run && it.at >= last.at - ms && (brief || !it.brief)) || last;\n\
    }\n\
    \n\
    function perSecond(of, ms = 10000) {\n\
    \tconst last = latest(), first = since(ms);\n\
    \treturn last.at > first.at ? Math.max(0, of(last.told) - of(first.told)) / (last.at - first.at) * 1000 : 0;\n\
    }\n\
    \n\
    // The steps of the chart: what was counted from one moment to another, as rates.\n\
    function columns() {\n\
    \tconst found = [];\n\
    \tlet before = null, silent = null;\n\
    \tpage.samples.forEach(it => {\n\
    \t\tif (!it.told) { silent ??= before?.at ?? it.at; return; }\n\
    \t\tif (silent !== null || !before || before.run !== it.run) {\n\
    \t\t\tif (silent !== null) found.push({ from: silent, to: it.at });\n\
    \t\t\tsilent = null;\n\
    \t\t\tbefore = it;\n\
    \t\t} else if (it.at - before.at > COLUMN - EVERY / 2) {\n\
    \t\t\tconst seconds = (it.at - before.at) / 1000;\n\
    \t\t\tfound.push({\n\
    \t\t\t\tfrom: before.at, to: it.at, received: Math.max(0, it.told.received - before.told.received) / seconds,\n\
    \t\t\t\tparts: PLACES.map(([place]) => Math.max(0, placeOf(it.told, place) - placeOf(before.told, place)) / seconds),\n\
    \t\t\t});\n\
    \t\t\tbefore = it;\n\
    \t\t}\n\
    \t});\n\
    \tif (silent !== null) found.push({ from: silent, to: page.samples.at(-1).at });\n\
    \treturn found;\n\
    }\n\
    \n\
    function keep(told, at) {\n\
    \tconst last = latest();\n\
    \tlet run = last ? last.run : 0;\n\
    \tif (told && last && (told.uptime < last.told.uptime || told.received < last.told.received)) {\n\
    \t\trun++;\n\
    \t\tpage.restartedAt = Date.now();\n\
    \t\tpage.settings = null;\n\
    \t}\n\
    \tpage.samples.push({ at, told, run });\n\
    \twhile (page.samples[0].at < at - WINDOW - COLUMN) page.samples.shift();\n\
    }\n\
    \n\
    // What the collector itself has kept, before the page was opened.\n\
    function keepHistory({ now_ms, history: { columns: names, rows } }, at) {\n\
    \tconst earlier = rows.map(row => {\n\
    \t\tconst of = Object.fromEntries(names.map((name, place) => [name, row[place]]));\n\
    \t\treturn { at: at - (now_ms - of.at_ms), run: 0, brief: true, told: { received: of.received, handed: of.handed, dropped: of, uptime: 0 } };\n\
    \t});\n\
    \tpage.samples.unshift(...earlier.filter(it => it.at < at && it.at > at - WINDOW));\n\
    }\n\
    \n\
    async function refresh() {\n\
    \tlet metrics, status, config;\n\
    \ttry {\n\
    \t\tmetrics = await get(\"metrics\");\n\
    \t\tpage.health = (await get(\"healthz\")).trim();\n\
    \t\tif (FEEDS.has(\"status\")) status = await get(\"status.json\");\n\
    \t\tif (!page.settings) config = await get(\"config\");\n\
    \t\tpage.goneSince = 0;\n\
    \t} catch {\n\
    \t\tpage.goneSince ||= Date.now();\n\
    \t}\n\
    \tconst begun = performance.now();\n\
    \tif (config) page.settings = readToml(config);\n\
    \tkeep(page.goneSince ? null : readMetrics(metrics), begun);\n\
    \tstatus = status && JSON.parse(status);\n\
    \tif (status && page.samples.length === 1) keepHistory(status, begun);\n\
    \tpage.export = status?.export;\n\
    \tif (!page.goneSince) page.toldAt = Date.now();\n\
    \tshow();\n\
    \tpage.spent = [...page.spent.slice(-299), performance.now() - begun];\n\
    }\n\
    \n\
    async function keepRefreshing() {\n\
    \tfor (;;) {\n\
    \t\tif (!page.paused) await refresh().catch(fault => say(\"state\", \"Fault of this page: \" + fault.message));\n\
    \t\tif (!page.paused && FEEDS.has(\"decisions\") && !$(\"decisions\").hidden) {\n\
    \t\t\tawait readDecisions();\n\
    \t\t\tif (page.asked) await readTrace();\n\
    \t\t}\n\
    \t\tawait new Promise(done => setTimeout(done, EVERY));\n\
    \t}\n\
    }\n\
    \n\
    function show() {\n\
    \tshowState();\n\
    \tconst last = latest();\n\
    \tif (!last || !page.settings) return;\n\
    \tdocument.body.classList.remove(\"blank\");\n\
    \tfor (const part of [showNotices, showBalance, showChart, showGauges, showPolicies, showShards, showAnswers, showOutput]) part(last.told);\n\
    \tif (page.shownSettings !== page.settings) showSettings(page.shownSettings = page.settings);\n\
    }\n\
    \n\
    function showState() {\n\
    \tconst state = page.goneSince ? \"gone\" : page.health === \"ok\" ? \"running\" : page.health ? \"closing\" : \"asking\", told = latest()?.told;\n\
    \t$(\"state\").dataset.is = state;\n\
    \tsay(\"state\", { gone: \"Doesn't answer\", running: \"Running\", closing: \"Closing\", asking: \"Asking …\" }[state]);\n\
    \tdocument.body.classList.toggle(\"gone\", state === \"gone\");\n\
    \tif (!told) return page.goneSince && showNotices();\n\
    \tsay(\"listen\", page.settings?.listen || \"–\");\n\
    \tsay(\"uptime\", lasting(told.uptime * 1000));\n\
    \tsay(\"version\", told.version);\n\
    \tsay(\"told\", clock(page.toldAt));\n\
    }\n\
    \n\
    const lostIn = (reason, ms) => latest().told.dropped[reason] - since(ms, true).told.dropped[reason];\n\
    \n\
    function findNotices(told) {\n\
    \tconst found = [], settings = page.settings || {}, out = settings.export;\n\
    \tconst add = (id, level, title, is, act = \"\") => found.push({ id, level, title, is, act });\n\
    \tif (page.goneSince) {\n\
    \t\tadd(\"gone\", \"bad\", \"The collector doesn't answer\", `since ${clock(page.goneSince)}, for ${lasting(Date.now() - page.goneSince)}. ${told ? \"The numbers below are its last. \" : \"\"}This page asks on.`,\n\
    \t\t\t\"Is the process there (`systemctl status tsc`)? If it was killed, what waited in its memory is lost; what wasn't answered is sent again.\");\n\
    \t\treturn found;\n\
    \t}\n\
    \tif (page.health !== \"ok\") add(\"closing\", \"warn\", \"It is being closed, or its output has failed\", `Requests are answered 503. ${spansOf(told.waiting)} are still to be decided and handed over.`,\n\
    \t\t\"Wait until it is gone. If nobody closed it: is the disk full, or the reader of its output gone?\");\n\
    \tif (page.restartedAt > Date.now() - WINDOW) add(\"restart\", \"note\", \"It was started anew\", `at about ${clock(page.restartedAt)}; all counts began again with 0.`);\n\
    \tif (!told.received) add(\"empty\", \"note\", \"No spans yet\", `Senders post OTLP to \\`http://${settings.listen}/v1/traces\\`.`, `In the Collector: exporter \\`otlphttp\\`${settings.accept_protobuf ? \"\" : \" with `encoding: json`\"}.`);\n\
    \n\
    \tconst lost = (reason, title, act) => {\n\
    \t\tconst minute = lostIn(reason, 60000), seen = lostIn(reason, WINDOW), all = told.dropped[reason];\n\
    \t\tif (minute) add(reason, \"bad\", title, `${spansOf(minute)} in the last minute, ${count(all)} since the start.`, act);\n\
    \t\telse if (seen) add(reason, \"note\", title, `None in the last minute; ${spansOf(seen)} in the last ten, ${count(all)} since the start.`, act);\n\
    \t\telse if (all) add(reason, \"past\", title, `${spansOf(all)} since the start, none while this page watched.`);\n\
    \t};\n\
    \tconst larger = `raise \\`queue_capacity\\` (now ${count(settings.queue_capacity)}) or \\`shards\\` (now ${settings.shards})`;\n\
    \tconst lessWaits = \"or let less wait: a shorter `decision_wait_ms`, a smaller `num_traces`, a `maximum_trace_size_bytes`.\";\n\
    \tlost(\"queue_full\", \"A queue is full: spans are discarded\", `Set \\`queue_full = \"retry\"\\`, so that senders send again, or ${larger}.`);\n\
    \tlost(\"evicted\", \"Traces leave before they are decided\", `${roomWanted(settings)} Or shorten \\`decision_wait_ms\\` (now ${lasting(settings.decision_wait_ms)}).`);\n\
    \tlost(\"exporter_down\", out ? \"Lines for the backend are given up\" : \"The output failed: kept spans are thrown away\",\n\
    \t\tout ? `Is the backend at \\`${out.endpoint}\\` there, and does it take what is sent? If it may be away for longer, raise \\`retry_for_ms\\` (now ${lasting(out.retry_for_ms)}) and \\`queue_batches\\`.`\n\
    \t\t\t: \"Is the disk full, or the reader of the output gone? Mend that, then restart it.\");\n\
    \tlost(\"no_memory\", \"There is no memory for spans\", \"Raise `memory_limit_mib` and what the system allows the process, \" + lessWaits);\n\
    \n\
    \tconst limit = settings.memory_limit_mib * 2 ** 20, full = limit ? told.memory / limit : 0;\n\
    \tif (full > 0.9) add(\"memory\", ...full >= 1 ? [\"bad\", \"Memory is above its limit: requests are turned away\"] : [\"warn\", \"Memory is near its limit\"],\n\
    \t\t`${bytes(told.memory)} of ${bytes(limit)}; above it requests are answered 503.`, \"Raise `memory_limit_mib`, \" + lessWaits);\n\
    \tconst filling = told.shards.map((it, at) => at).filter(at => told.shards[at].queue > 0.7 * settings.queue_capacity);\n\
    \tif (filling.length) add(\"filling\", \"warn\", `The queue of shard ${filling.join(\", \")} fills up`, `${filling.map(at => count(told.shards[at].queue)).join(\", \")} spans wait to be taken.`,\n\
    \t\t\"If that lasts, the shards don't keep up: raise `shards`. Or is the machine busy otherwise?\");\n\
    \tconst traces = overShards(told, \"traces\");\n\
    \tif (traces > 0.9 * settings.num_traces) add(\"crowded\", \"warn\", \"There is hardly room for more traces\", `${count(traces)} of ${count(settings.num_traces)}; beyond that the oldest leave undecided.`, roomWanted(settings));\n\
    \tif (told.connections > 0.9 * settings.max_connections) add(\"connections\", \"warn\", \"Nearly all connections are in use\", `${count(told.connections)} of ${count(settings.max_connections)}; beyond that idle ones are closed.`, \"Raise `max_connections`, or let a proxy in front share them.\");\n\
    \n\
    \tconst early = since(60000).told, minute = (group, key) => (told[group][key] || 0) - (early[group][key] || 0), busy = minute(\"answers\", 503);\n\
    \tif (busy && page.health === \"ok\") add(\"busy\", \"warn\", \"Requests are turned away\", `${count(busy)} answers with 503 in the last minute. Nothing is lost where senders send again.`,\n\
    \t\tfull > 0.9 ? \"Memory is the reason (above).\" : `Queues are full for moments: ${larger}.`);\n\
    \tconst refused = Object.keys(MEANING).filter(code => code > 200 && code < 500 && minute(\"answers\", code));\n\
    \tif (refused.length) add(\"refused\", \"warn\", \"Some requests aren't taken\", refused.map(code => `${count(minute(\"answers\", code))} × ${code} (${MEANING[code]})`).join(\", \") + \" in the last minute; their spans didn't get in.\",\n\
    \t\t\"Which sender is it? JSON is wanted (`encoding: json`), packed at most by gzip (`accept_gzip = true`).\");\n\
    \tconst ids = lostIn(\"invalid_id\", 60000);\n\
    \tif (ids) {\n\
    \t\tconst share = ids / Math.max(1, told.received - early.received);\n\
    \t\tadd(\"invalid_id\", share > 0.01 ? \"warn\" : \"note\", \"Some spans have invalid ids\", `${count(ids)} in the last minute, ${percent(share)} of what came.`,\n\
    \t\t\t\"Which service sends them? Ids are hex, 32 digits of a trace and 16 of a span; base64, and keys such as `trace_id`, count as invalid.\");\n\
    \t}\n\
    \tif (out) {\n\
    \t\tconst [silent, turned] = [minute(\"attempts\", \"unanswered\"), minute(\"attempts\", \"refused\")], failed = silent + turned, all = failed + minute(\"attempts\", \"taken\");\n\
    \t\tif (failed > 0.1 * all) add(\"backend\", \"warn\", \"The backend fails\", `${count(failed)} of ${count(all)} attempts in the last minute: ${count(silent)} without an answer, ${count(turned)} refused.`,\n\
    \t\t\t`Does \\`${out.endpoint}\\` answer? A line is tried for ${out.retry_for_ms ? lasting(out.retry_for_ms) : \"ever\"}, while others wait behind it.`);\n\
    \t}\n\
    \treturn [\"bad\", \"warn\", \"note\", \"past\"].flatMap(level => found.filter(it => it.level === level));\n\
    }\n\
    \n\
    // New traces a second, as many as there are to a span of decided ones, for the longest wait, and a quarter more.\n\
    function roomWanted(settings) {\n\
    \tconst spans = perSecond(it => it.handed + it.dropped.not_sampled, 60000), traces = perSecond(it => [...it.decided.values()].reduce((sum, of) => sum + of.sampled + of.not_sampled, 0), 60000);\n\
    \tconst wanted = Math.ceil(perSecond(it => it.received, 60000) * traces / (spans || 1) * settings.decision_wait_ms * 1.25 / 1e6) * 1000;\n\
    \treturn `Raise \\`num_traces\\` (now ${count(settings.num_traces)})${wanted > settings.num_traces ? `: ${count(wanted)} are enough for the present load` : \"\"}.`;\n\
    }\n\
    \n\
    function showNotices(told) {\n\
    \tconst found = findNotices(told), box = $(\"notices\"), kept = id => $(\"notice-\" + id) || make(\"div\", { id: \"notice-\" + id });\n\
    \tconst urgent = found.filter(it => it.level === \"bad\" || it.level === \"warn\").length, past = found.filter(it => it.level === \"past\");\n\
    \tconst shown = found.filter(it => it.level !== \"past\").map(({ id, level, title, is, act }) => {\n\
    \t\tconst it = kept(id), text = [level, title, is, act].join();\n\
    \t\tif (it.told !== text) {\n\
    \t\t\tit.told = text;\n\
    \t\t\tit.className = \"notice\";\n\
    \t\t\tit.dataset.level = level;\n\
    \t\t\tit.replaceChildren(make(\"p\", {}, make(\"b\", {}, title), ...worded(is)), ...act ? [make(\"p\", {}, ...worded(act))] : []);\n\
    \t\t}\n\
    \t\treturn it;\n\
    \t});\n\
    \tconst line = (id, text) => {\n\
    \t\tconst it = kept(id);\n\
    \t\tsay(it, text);\n\
    \t\treturn it;\n\
    \t};\n\
    \tif (!urgent) shown.unshift(line(\"calm\", \"✓ Nothing needs you.\"));\n\
    \tif (past.length) shown.push(line(\"past\", \"Earlier: \" + past.map(({ title, is }) => `${title}: ${is}`).join(\" \")));\n\
    \tif (shown.some((it, at) => box.children[at] !== it) || box.children.length > shown.length) box.replaceChildren(...shown);\n\
    \n\
    \tsay(\"spoken\", found.map(it => it.title).join(\". \"));\n\
    \tconst worst = found[0]?.level, colour = worst === \"bad\" ? \"%23b3261e\" : worst === \"warn\" ? \"%23e69f00\" : \"%231a7048\";\n\
    \tdocument.title = (urgent ? `(${urgent}) ` : \"\") + \"tsc: \" + $(\"state\").textContent.toLowerCase();\n\
    \tconst icon = `data:image/svg+xml,<svg xmlns='http://www.w3.org/2000/svg' viewBox='0 0 8 8'><circle cx='4' cy='4' r='4' fill='${colour}'/></svg>`;\n\
    \tconst link = document.querySelector(\"link[rel=icon]\");\n\
    \tif (link.getAttribute(\"href\") !== icon) link.href = icon;\n\
    }\n\
    \n\
    function showBalance(told) {\n\
    \tconst against = told.dropped.not_sampled + told.dropped.late_not_sampled, lost = LOST.reduce((sum, it) => sum + told.dropped[it], 0);\n\
    \tconst moving = told.received - told.handed - against - lost - told.waiting, all = Math.max(told.received, 1);\n\
    \tconst terms = [\n\
    \t\t[\"\", \"received\", told.received], [\"=\", \"handed over\", told.handed, \"--handed\"], [\"+\", \"decided against\", against, \"--against\"],\n\
    \t\t[\"+\", \"lost\", lost, \"--queue\"], [\"+\", \"waiting\", told.waiting, \"--waits\"],\n\
    \t];\n\
    \tif (moving) terms.push([moving < 0 ? \"−\" : \"+\", \"counted just now\", Math.abs(moving), \"--late\"]);\n\
    \tconst list = $(\"sum\");\n\
    \twhile (list.children.length > terms.length) list.lastChild.remove();\n\
    \tterms.forEach(([sign, name, value, colour], at) => {\n\
    \t\tconst it = list.children[at] || list.appendChild(make(\"div\", {}, make(\"dt\", {}, ...colour ? [swatch(colour)] : [], name), make(\"dd\")));\n\
    \t\tit.dataset.sign = sign;\n\
    \t\tsay(it.lastChild, count(value));\n\
    \t});\n\
    \tsay(\"adds-up\", !told.received ? \"nothing was received yet\"\n\
    \t\t: moving ? `adds up, with ${spansOf(Math.abs(moving))} counted while the numbers were read` : \"adds up: each received span is handed over, turned down, lost or waiting, once\");\n\
    \n\
    \tconst svg = $(\"bars\"), pieces = [draw(\"rect\", { width: told.received && 1000, height: 12, fill: \"var(--text)\" })];\n\
    \tsvg.setAttribute(\"aria-label\", terms.slice(1).map(([, name, value]) => `${name} ${percent(value / all)}`).join(\", \"));\n\
    \tlet x = 0;\n\
    \tfor (const [value, colour] of [...PLACES.map(([place, , colour]) => [placeOf(told, place), colour]), [told.waiting, \"--waits\"]]) {\n\
    \t\tconst width = 1000 * value / all;\n\
    \t\tif (value) pieces.push(draw(\"rect\", { x, y: 15, width: Math.max(width, 1.5), height: 19, fill: `var(${colour})` }));\n\
    \t\tx += width;\n\
    \t}\n\
    \tsvg.replaceChildren(...pieces);\n\
    }\n\
    \n\
    // The chart.\n\
    \n\
    function niceTop(most) {\n\
    \tconst power = 10 ** Math.floor(Math.log10(most));\n\
    \treturn [1, 1.2, 1.6, 2, 2.4, 3, 4, 5, 6, 8, 10].map(it => it * power).find(it => it >= most);\n\
    }\n\
    \n\
    function showChart() {\n\
    \tconst svg = $(\"chart\"), { width, height } = page.chartSize;\n\
    \tconst left = 44, right = width - 4, top = 12, bottom = height - 24;\n\
    \tconst now = page.samples.at(-1).at, shown = columns().filter(it => it.to > now - WINDOW);\n\
    \tconst most = niceTop(Math.max(4, ...shown.map(it => Math.max(it.received || 0, (it.parts || []).reduce((a, b) => a + b, 0)))));\n\
    \tconst x = at => tenth(right - (now - Math.max(at, now - WINDOW)) / WINDOW * (right - left)), y = value => tenth(bottom - value / most * (bottom - top));\n\
    \tconst parts = [];\n\
    \n\
    \tfor (let step = 0; step <= 4; step++) {\n\
    \t\tconst value = most * step / 4;\n\
    \t\tparts.push(draw(\"line\", { x1: left, x2: right, y1: y(value), y2: y(value), class: step ? \"grid\" : \"axis\" }));\n\
    \t\tparts.push(draw(\"text\", { x: left - 6, y: y(value) + 4, \"text-anchor\": \"end\" }, Number.isInteger(value) ? count(value) : value.toFixed(1)));\n\
    \t}\n\
    \tfor (let minutes = 0; minutes <= 10; minutes += width > 500 ? 2 : 5) {\n\
    \t\tparts.push(draw(\"text\", { x: x(now - minutes * 60000), y: height - 6, \"text-anchor\": minutes === 10 ? \"start\" : minutes ? \"middle\" : \"end\" }, minutes ? `${minutes} min ago` : \"now\"));\n\
    \t}\n\
    \t// Columns without a gap are one piece.\n\
    \tconst stretches = [];\n\
    \tfor (const it of shown) {\n\
    \t\tif (!it.parts) {\n\
    \t\t\tconst width = x(it.to) - x(it.from);\n\
    \t\t\tparts.push(draw(\"rect\", { x: x(it.from), y: top, width: Math.max(1, width), height: bottom - top, class: \"silent\" }));\n\
    \t\t\tif (width > 70) parts.push(draw(\"text\", { x: (x(it.from) + x(it.to)) / 2, y: top + 16, \"text-anchor\": \"middle\" }, \"no answer\"));\n\
    \t\t} else if (stretches.at(-1)?.at(-1).to === it.from) stretches.at(-1).push(it);\n\
    \t\telse stretches.push([it]);\n\
    \t}\n\
    \tfor (const stretch of stretches) {\n\
    \t\tconst forth = heights => `M${x(stretch[0].from)} ` + stretch.map((it, at) => `${at ? \"V\" : \"\"}${y(heights[at])}H${x(it.to)}`).join(\"\");\n\
    \t\tlet floor = stretch.map(() => 0);\n\
    \t\tPLACES.forEach(([, , colour], place) => {\n\
    \t\t\tif (!stretch.some(it => it.parts[place])) return;\n\
    \t\t\tconst roof = stretch.map((it, at) => floor[at] + it.parts[place]), back = stretch.map((it, at) => `V${y(floor[at])}H${x(it.from)}`);\n\
    \t\t\tparts.push(draw(\"path\", { d: forth(roof) + back.reverse().join(\"\") + \"Z\", fill: `var(${colour})` }));\n\
    \t\t\tfloor = roof;\n\
    \t\t});\n\
    \t\tparts.push(draw(\"path\", { class: \"received\", d: forth(stretch.map(it => it.received)) }));\n\
    \t}\n\
    \tconst steps = shown.filter(it => it.parts);\n\
    \tconst chosen = page.chosen === null ? null : steps.find(it => page.chosen > it.from && page.chosen <= it.to);\n\
    \tif (chosen) {\n\
    \t\tconst middle = x((chosen.from + chosen.to) / 2);\n\
    \t\tparts.push(draw(\"line\", { class: \"cursor\", x1: middle, x2: middle, y1: top, y2: bottom }));\n\
    \t}\n\
    \tif (!steps.length) parts.push(draw(\"text\", { x: (left + right) / 2, y: (top + bottom) / 2, \"text-anchor\": \"middle\" }, \"It begins with the next numbers.\"));\n\
    \tsvg.setAttribute(\"viewBox\", `0 0 ${width} ${height}`);\n\
    \tsvg.replaceChildren(...parts);\n\
    \tpage.scale = { from: left, to: right, now, steps };\n\
    \tshowLegend(chosen);\n\
    \tconst last = steps.at(-1);\n\
    \tif (last) svg.setAttribute(\"aria-label\", `Spans a second over ten minutes. Now ${rate(last.received)} come in, ${rate(last.parts[0])} are handed over. Arrow keys tell other moments; a table is below.`);\n\
    \tif (svg.closest(\"section\").querySelector(\"details\").open) showMinutes(steps, now);\n\
    }\n\
    \n\
    function showLegend(chosen) {\n\
    \tconst told = latest().told, wallOf = at => page.toldAt - (latest().at - at);\n\
    \tconst rows = [{ cells: [{ key: \"\", text: \"received\" }, rate(chosen ? chosen.received : perSecond(it => it.received)), count(told.received)] }];\n\
    \tPLACES.map((it, at) => [...it, at]).reverse().forEach(([place, name, colour, at]) => {\n\
    \t\trows.push({ cls: placeOf(told, place) ? \"\" : \"zero\", cells: [\n\
    \t\t\t{ key: colour, text: name }, rate(chosen ? chosen.parts[at] : perSecond(it => placeOf(it, place))), count(placeOf(told, place)),\n\
    \t\t] });\n\
    \t});\n\
    \ttable($(\"legend\"), \"What became of spans\", [\"Spans\", chosen ? `at ${clock(wallOf(chosen.to))}, a second` : \"now, a second\", \"since the start\"], rows);\n\
    }\n\
    \n\
    function showMinutes(steps, now) {\n\
    \tconst names = [\"received\", ...PLACES.map(it => it[1])], used = names.map((_, at) => at).filter(at => !at || steps.some(it => it.parts[at - 1])), rows = [];\n\
    \tfor (let minute = 0; minute < 10; minute++) {\n\
    \t\tconst within = steps.filter(it => it.to <= now - minute * 60000 && it.to > now - (minute + 1) * 60000);\n\
    \t\tconst seconds = within.reduce((sum, it) => sum + it.to - it.from, 0);\n\
    \t\tconst mean = of => rate(within.reduce((sum, it) => sum + of(it) * (it.to - it.from), 0) / seconds);\n\
    \t\tif (within.length) rows.push({ cells: [clock(page.toldAt - minute * 60000), ...used.map(at => mean(it => at ? it.parts[at - 1] : it.received))] });\n\
    \t}\n\
    \ttable($(\"minutes\"), \"Spans a second, mean of each minute\", [\"until\", ...used.map(at => names[at])], rows);\n\
    }\n\
    \n\
    function choose(step) {\n\
    \tconst { steps } = page.scale || { steps: [] }, at = steps.findIndex(it => page.chosen > it.from && page.chosen <= it.to);\n\
    \tconst next = steps[Math.min(steps.length - 1, Math.max(0, (at < 0 ? steps.length : at) + step))];\n\
    \tif (next) { page.chosen = next.to; showChart(); }\n\
    }\n\
    \n\
    // How the backend takes what waits for it.\n\
    function sendingOf(it) {\n\
    \tconst batches = Math.ceil(it.waiting_spans / page.settings.send_batch_size), found = [`about ${count(batches)} batch${batches === 1 ? \"\" : \"es\"}`];\n\
    \tif (it.under_way_s) found.push(`one is sent for ${lasting(1000 * it.under_way_s)}`);\n\
    \tif (it.failed_tries) found.push(`${count(it.failed_tries)} of its tries failed`);\n\
    \tif (it.given_up_batches) found.push(`${count(it.given_up_batches)} were given up`);\n\
    \treturn found.join(\", \");\n\
    }\n\
    \n\
    function showGauges(told) {\n\
    \tconst settings = page.settings, limit = settings.memory_limit_mib * 2 ** 20, ofLimit = (value, most) => `${percent(value / most)} of ${count(most)}`;\n\
    \tconst traces = it => overShards(it, \"traces\"), spans = overShards(told, \"spans\"), leaving = it => Math.max(0, it.waiting - overShards(it, \"spans\") - overShards(it, \"queue\"));\n\
    \tconst pace = perSecond(it => it.handed, 60000), left = page.export ? page.export.waiting_spans : leaving(told);\n\
    \tconst lag = !left ? \"nothing waits for the output\" : page.export ? sendingOf(page.export) : pace ? `about ${lasting(1000 * left / pace)} at the present pace (estimated)` : \"none left in the last minute\";\n\
    \tconst gauges = [\n\
    \t\t[\"memory\", \"Memory\", bytes(told.memory), limit ? `${percent(told.memory / limit)} of ${bytes(limit)}` : \"no limit is set (memory_limit_mib)\", it => it.memory, limit],\n\
    \t\t[\"traces\", \"Traces that wait\", count(traces(told)), `${ofLimit(traces(told), settings.num_traces)}; ${spansOf(spans)}`, traces, settings.num_traces],\n\
    \t\t[\"leaving\", `On the way to the ${settings.export ? \"backend\" : \"output\"}`, spansOf(left), lag, leaving],\n\
    \t\t[\"connections\", \"Connections\", count(told.connections), ofLimit(told.connections, settings.max_connections), it => it.connections, settings.max_connections],\n\
    \t];\n\
    \tgauges.forEach(([id, name, value, note, of, most]) => {\n\
    \t\tconst it = $(\"gauge-\" + id) || $(\"gauges\").appendChild(make(\"section\", { class: \"card\", id: \"gauge-\" + id }, make(\"h3\"), make(\"p\", { class: \"big\" }), make(\"p\", { class: \"muted\" }),\n\
    \t\t\tdraw(\"svg\", { class: \"spark\", \"aria-hidden\": \"true\", viewBox: \"0 0 240 44\", preserveAspectRatio: \"none\" })));\n\
    \t\t[name, value, note].forEach((text, at) => say(it.children[at], text));\n\
    \t\tshowSpark(it.lastChild, of, most);\n\
    \t});\n\
    }\n\
    \n\
    function showSpark(svg, of, limit) {\n\
    \tconst now = page.samples.at(-1).at, sixth = it => Math.floor(it?.at / 6000);\n\
    \tconst points = page.samples.filter((it, at) => it.told && !it.brief && sixth(it) !== sixth(page.samples[at + 1])).map(it => [it.at, of(it.told)]);\n\
    \tconst most = Math.max(1, ...points.map(it => it[1])), near = limit && most > limit / 4, top = 1.1 * (near ? Math.max(most, limit) : most);\n\
    \tconst x = at => tenth(240 - (now - at) / WINDOW * 240), y = value => tenth(42.5 - value / top * 41);\n\
    \tconst parts = [draw(\"line\", { class: \"axis\", x2: 240, y1: 43.5, y2: 43.5 })];\n\
    \tif (near) parts.push(draw(\"line\", { class: \"limit\", x2: 240, y1: y(limit), y2: y(limit) }));\n\
    \tif (points.length > 1) parts.push(draw(\"path\", { d: \"M\" + points.map(([at, value]) => `${x(at)},${y(value)}`).join(\" \") }));\n\
    \tsvg.replaceChildren(...parts);\n\
    }\n\
    \n\
    const either = texts => texts.map(it => `“${it}”`).join(\" or \");\n\
    \n\
    const WORDS = {\n\
    \talways_sample: () => \"every trace\",\n\
    \tlatency: it => it.upper_threshold_ms ? `takes more than ${lasting(it.threshold_ms)}, at most ${lasting(it.upper_threshold_ms)}` : `takes ${lasting(it.threshold_ms)} or longer`,\n\
    \tstatus_code: it => `a span with status ${it.status_codes.join(\" or \")}`,\n\
    \tstring_attribute: it => `${it.key} ${it.enabled_regex_matching ? \"matches\" : \"is\"} ${either(it.values)}`,\n\
    \tnumeric_attribute: it => it.key + (it.max_value === undefined ? ` is ${it.min_value} or more` : it.min_value === undefined ? ` is ${it.max_value} or less` : ` is ${it.min_value} to ${it.max_value}`),\n\
    \tboolean_attribute: it => `${it.key} is ${it.value}`,\n\
    \tspan_count: it => !it.max_spans ? `${spansOf(it.min_spans)} or more` : (it.max_spans === it.min_spans ? \"exactly \" : `${it.min_spans} to `) + spansOf(it.max_spans),\n\
    \trate_limiting: it => `up to ${spansOf(it.spans_per_second)} a second`,\n\
    \tbytes_limiting: it => `up to ${bytes(it.bytes_per_second)} a second, ${bytes(it.burst_capacity ?? 2 * it.bytes_per_second)} at once`,\n\
    \tprobabilistic: it => `${it.sampling_percentage} % of all, by the trace id`,\n\
    \ttrace_state: it => `trace state has ${it.key} = ${either(it.values)}`,\n\
    \ttrace_flags: () => \"flagged as sampled by its sender\",\n\
    \tand: () => \"where all of these agree:\",\n\
    \tnot: () => \"where this doesn't agree:\",\n\
    \tdrop: () => \"drops where all of these agree:\",\n\
    \tcomposite: it => `up to ${spansOf(it.max_total_spans_per_second)} a second, shared by:`,\n\
    };\n\
    \n\
    function policyWords(policy) {\n\
    \tconst own = policy[policy.type] || {};\n\
    \treturn (own.invert_match ? \"speaks against traces where \" : \"\") + (WORDS[policy.type]?.(own) ?? policy.type);\n\
    }\n\
    \n\
    function partsOf(policy) {\n\
    \treturn [policy[policy.type]?.[policy.type + \"_sub_policy\"] || []].flat();\n\
    }\n\
    \n\
    function partRows(policy, depth) {\n\
    \treturn partsOf(policy).flatMap(part => {\n\
    \t\tconst share = policy.type === \"composite\" && (policy.composite.rate_allocation || []).find(it => it.policy === part.name);\n\
    \t\tconst words = (share ? `${share.percent} % of it: ` : \"\") + policyWords(part);\n\
    \t\treturn [{ cells: [{ part: depth, text: part.name, says: words, span: 5 }] }, ...partRows(part, depth + 1)];\n\
    \t});\n\
    }\n\
    \n\
    function showPolicies(told) {\n\
    \tconst windowed = $(\"over\").querySelector(\"[value=window]\").checked, first = windowed ? since(WINDOW) : null;\n\
    \tconst none = { sampled: 0, not_sampled: 0 };\n\
    \tconst of = (it, key) => it?.told.decided.get(key) || none, now = latest();\n\
    \tconst tally = key => ({ kept: of(now, key).sampled - of(first, key).sampled, turned: of(now, key).not_sampled - of(first, key).not_sampled });\n\
    \tconst keys = [...told.decided.keys()], all = keys.map(tally).reduce((sum, it) => ({ kept: sum.kept + it.kept, turned: sum.turned + it.turned }), { kept: 0, turned: 0 });\n\
    \tconst total = all.kept + all.turned, share = n => total ? n / total : 0;\n\
    \tconst row = (key, title, says) => {\n\
    \t\tconst { kept, turned } = tally(key);\n\
    \t\treturn { cells: [\n\
    \t\t\t{ text: title, strong: 1, says }, count(kept), { text: count(turned), cls: \"n narrow\" },\n\
    \t\t\t{ text: total ? percent(share(kept + turned)) : \"–\", bar: [[share(kept)], [share(turned), \"against\"]], cls: \"\" },\n\
    \t\t\t{ text: rate(perSecond(it => of({ told: it }, key).sampled + of({ told: it }, key).not_sampled, 60000)), cls: \"n narrow\" },\n\
    \t\t] };\n\
    \t};\n\
    \tconst first_match = page.settings.sample_on_first_match, ofPolicy = (it, place) => row(deciderKey(it.name, first_match ? undefined : place), it.name, policyWords(it));\n\
    \tconst rows = page.settings.policies.flatMap((it, place) => [ofPolicy(it, place), ...partRows(it, 1)]);\n\
    \tif (first_match) rows.push(row(deciderKey(\"\", 0), \"All of them\", \"with sample_on_first_match it isn't told which one decided\"));\n\
    \trows.push(row(deciderKey(\"\"), \"None of them\", \"no policy spoke for the trace, or it was too big\"));\n\
    \ttable($(\"policies\"), \"Traces by the policy that decided\", [\"Policy, in the order of the configuration\", \"traces kept\", \"turned down\", \"share of all decided\", \"now, a second\"], rows);\n\
    \tsay(\"kept-share\", total ? `keeps ${percent(all.kept / total)}: ${count(all.kept)} of ${count(total)} decided traces` : \"no trace was decided yet\");\n\
    \tconst watched = latest().at - since(WINDOW).at;\n\
    \tsay(\"window-name\", watched > WINDOW - 10000 ? \"last ten minutes\" : \"since this page was opened\");\n\
    }\n\
    \n\
    function showShards(told) {\n\
    \tconst room = page.settings.queue_capacity, most = key => Math.max(1, ...told.shards.map(it => it[key]));\n\
    \tconst cell = (value, share) => ({ text: count(value), bar: [[share]] });\n\
    \tconst [traces, spans] = [most(\"traces\"), most(\"spans\")];\n\
    \tconst rows = told.shards.map((it, at) => ({ cells: [String(at), cell(it.traces, it.traces / traces), cell(it.spans, it.spans / spans), cell(it.queue, it.queue / room)] }));\n\
    \tconst total = key => count(overShards(told, key));\n\
    \tif (told.shards.length > 1) rows.push({ cls: \"sumrow\", cells: [\"all\", total(\"traces\"), total(\"spans\"), total(\"queue\")] });\n\
    \ttable($(\"shards\"), \"What waits, by shard\", [\"Shard\", \"traces\", \"spans\", \"in its queue\"], rows);\n\
    \tsay(\"queue-room\", `bars: against the fullest shard; queues against ${count(room)}, where one may be full`);\n\
    }\n\
    \n\
    function showAnswers(told) {\n\
    \tconst codes = Object.keys(told.answers), seen = codes.filter(it => told.answers[it] || it === \"200\");\n\
    \ttable($(\"answers\"), \"Answers by status\", [\"Status\", \"now, a second\", \"since the start\"], seen.map(code => ({ cells: [\n\
    \t\t{ text: code, strong: 1, says: MEANING[code] }, rate(perSecond(it => it.answers[code] || 0, 60000)), count(told.answers[code]),\n\
    \t] })));\n\
    \tsay(\"no-answers\", seen.length < codes.length ? \"none with \" + codes.filter(it => !seen.includes(it)).join(\", \") : \"\");\n\
    }\n\
    \n\
    function showOutput(told) {\n\
    \tconst out = page.settings.export, line = (name, of, text = count) => ({ cells: [name, rate(perSecond(of, 60000)), text(of(told))] });\n\
    \tconst rows = [line(\"lines taken whole\", it => it.lines || 0), { cells: [\"their bytes\", bytes(perSecond(it => it.bytesOut || 0, 60000)), bytes(told.bytesOut)] }];\n\
    \tif (out) {\n\
    \t\tfor (const [result, name] of [[\"taken\", \"attempts: taken\"], [\"refused\", \"attempts: refused\"], [\"unanswered\", \"attempts: no answer\"]]) rows.push(line(name, it => it.attempts[result] || 0));\n\
    \t\trows.push(line(\"spans that the backend rejected\", it => it.rejected || 0));\n\
    \t}\n\
    \ttable($(\"output\"), \"Lines and attempts\", [\"Lines\", \"now, a second\", \"since the start\"], rows);\n\
    \tsay(\"output-to\", out ? `to ${out.endpoint}` : \"to standard output\");\n\
    }\n\
    \n\
    // A setting: its path, its default, what it means.\n\
    \n\
    const SETTINGS = [\n\
    \t[\"When a trace is decided\", [\n\
    \t\t[\"decision_wait_ms\", 30000, \"so long after its first span\"],\n\
    \t\t[\"root_wait_ms\", 0, \"or so long after its root came; 0: off\"],\n\
    \t\t[\"decision_wait_after_root_received_ms\", 0, \"or so long after its root came\"],\n\
    \t\t[\"tick_ms\", 1000, \"between two looks for traces that are due\"],\n\
    \t\t[\"sample_on_first_match\", false, \"the first policy that decides is the last that is asked\"],\n\
    \t\t[\"maximum_trace_size_bytes\", 0, \"a larger trace is turned down at once; 0: no limit\"],\n\
    \t]],\n\
    \t[\"What it may hold\", [\n\
    \t\t[\"num_traces\", 50000, \"traces; beyond it the oldest leaves\"],\n\
    \t\t[\"decision_cache.sampled_cache_size\", 0, \"traces remembered as kept, after they left\"],\n\
    \t\t[\"decision_cache.non_sampled_cache_size\", 0, \"traces remembered as turned down\"],\n\
    \t\t[\"memory_limit_mib\", 0, \"beyond it requests are answered 503; 0: no limit\"],\n\
    \t\t[\"queue_capacity\", 1024, \"spans between a lane and a shard\"],\n\
    \t\t[\"queue_full\", \"partial\", \"partial: spans are discarded; retry: requests are answered 503\"],\n\
    \t\t[\"shards\", 1, \"threads that decide\"],\n\
    \t]],\n\
    \t[\"How requests come in\", [\n\
    \t\t[\"listen\", \"127.0.0.1:4318\", \"the address for senders\"],\n\
    \t\t[\"accept_gzip\", false, \"packed requests are taken\"],\n\
    \t\t[\"max_connections\", 1024, \"open at once\"],\n\
    \t\t[\"lanes\", 1, \"threads that read requests\"],\n\
    \t\t[\"double_values\", \"discard\", \"attributes with a decimal number\"],\n\
    \t\t[\"close_at_end_of_input\", false, \"the end of standard input closes it\"],\n\
    \t]],\n\
    \t[\"How lines go out\", [\n\
    \t\t[\"send_batch_size\", 512, \"spans of a line, at most\"],\n\
    \t\t[\"export_capacity\", 1024, \"spans between a shard and the output\"],\n\
    \t\t[\"output_fault\", \"discard\", \"once the output fails\"],\n\
    \t\t[\"export.endpoint\", undefined, \"the backend\"],\n\
    \t\t[\"export.timeout_ms\", 10000, \"for an attempt\"],\n\
    \t\t[\"export.retry_initial_ms\", 500, \"the first wait before the next; it doubles\"],\n\
    \t\t[\"export.retry_max_ms\", 30000, \"the longest wait\"],\n\
    \t\t[\"export.retry_for_ms\", 300000, \"for all attempts of a line; 0: for ever\"],\n\
    \t\t[\"export.close_wait_ms\", 10000, \"the same at the close\"],\n\
    \t\t[\"export.queue_batches\", 256, \"full lines that may wait\"],\n\
    \t\t[\"export.lines\", false, \"lines are printed too\"],\n\
    \t\t[\"export.headers\", undefined, \"of each request; their values aren't shown\"],\n\
    \t]],\n\
    ];\n\
    \n\
    function showSettings(settings) {\n\
    \tconst shown = (path, it) => typeof it === \"object\" ? Object.keys(it).join(\", \") : typeof it !== \"number\" ? String(it) : !it ? \"0\" : path.endsWith(\"_ms\") ? lasting(it) : path.endsWith(\"_bytes\") ? bytes(it) : count(it) + (path.endsWith(\"_mib\") ? \" MiB\" : \"\");\n\
    \ttable($(\"in-force\"), \"Settings in force\", [\"Setting\", \"is\", \"which means\"], SETTINGS.flatMap(([title, keys]) => [{ cells: [{ text: title, strong: 1, span: 3 }], cls: \"group\" }, ...keys.flatMap(([path, usual, meaning]) => {\n\
    \t\tconst value = path.split(\".\").reduce((it, key) => it?.[key], settings), differs = usual !== undefined && value !== usual;\n\
    \t\treturn value === undefined ? [] : [{ cells: [{ text: path, code: 1 }, { text: shown(path, value), strong: differs, cls: \"n\" }, { text: meaning, cls: \"\", says: differs ? `(default ${shown(path, usual)})` : \"\" }] }];\n\
    \t})]));\n\
    }\n\
    \n\
    // Why was this trace kept, or not?\n\
    \n\
    const ANSWERS = {\n\
    \tsample: \"keep\", not_sample: \"no\", inverted_sample: \"nothing against it\", inverted_not_sample: \"against\", drop: \"drop\", not_asked: \"wasn't asked\",\n\
    };\n\
    const ENDS = { root: \"its root had come\", wait: \"its wait was over\", size: \"it had grown too big\", close: \"the collector was closed\" };\n\
    \n\
    // What the shards hold of a trace of whose decision nothing was told here.\n\
    function heldOf(held) {\n\
    \tconst verdict = held?.verdict === \"kept\" ? \"Kept\" : \"Not kept\";\n\
    \tif (!held) return [\"The shards are asked\", \"They answer in a moment.\"];\n\
    \tif (held.state === \"waiting\") return [\"It still waits\", `${HOLDS.waiting(held)}.`];\n\
    \tif (held.state === \"decided\") return [verdict, \"It was decided while nobody looked here: why is told in the file of decisions alone.\"];\n\
    \tif (held.state === \"remembered\") return [verdict, \"Only the verdict is still remembered: why is told in the file of decisions alone.\"];\n\
    \treturn [\"This trace isn't known\", \"It is unknown to every shard: it never came, or it was decided, or left, and was forgotten since.\"];\n\
    }\n\
    \n\
    const HOLDS = {\n\
    \twaiting: it => `waits since ${clock(it.since_ms)}, ${count(it.spans)} spans`, decided: it => `decided, ${it.verdict === \"kept\" ? \"kept\" : \"not kept\"}`,\n\
    \tremembered: it => `remembered as ${it.verdict === \"kept\" ? \"kept\" : \"not kept\"}`, unknown: () => \"unknown to every shard\",\n\
    };\n\
    \n\
    function verdictOf(it) {\n\
    \tif (it.state === \"unknown\") return heldOf(it.held);\n\
    \tif (it.state === \"evicted\") return [\"Left undecided\", `${it.wait_ms === undefined ? \"There\" : `After ${lasting(it.wait_ms)} there`} was no room for it: its ${count(it.spans)} spans are lost. Raise num_traces.`];\n\
    \tconst kept = it.verdict === \"kept\", verdict = kept ? \"Kept\" : \"Not kept\";\n\
    \tif (it.because === \"too_big\") return [verdict, \"It grew beyond maximum_trace_size_bytes, so no policy was asked.\"];\n\
    \tif (it.because === \"none_agreed\") return [verdict, \"No policy spoke for it.\"];\n\
    \treturn [verdict, `“${it.policy}” decided${kept ? \"\" : \" against it\"}.`];\n\
    }\n\
    \n\
    function showTrace(it) {\n\
    \tconst [verdict, reason] = verdictOf(it), told = it.verdict || it.state === \"unknown\" && it.held?.verdict || \"\";\n\
    \tconst parts = [make(\"p\", { class: \"verdict \" + told }, verdict), make(\"p\", {}, reason)];\n\
    \tconst facts = [\n\
    \t\t[\"trace\", it.trace_id, \"id\"], [\"root\", it.root && `${it.root} (${it.service})`], [\"took\", it.took_ms !== undefined && lasting(it.took_ms)],\n\
    \t\t[\"spans\", it.spans && count(it.spans) + (it.late_spans ? ` and ${it.late_spans} later` : \"\")], [\"size\", it.bytes && bytes(it.bytes)],\n\
    \t\t[it.verdict ? \"decided at\" : \"left at\", it.decided_ms && clock(it.decided_ms)], [\"waited\", it.ended_wait && `${lasting(it.wait_ms)}, until ${ENDS[it.ended_wait]}`],\n\
    \t\t[\"now\", it.held ? HOLDS[it.held.state](it.held) : \"the shards are asked\"],\n\
    \t];\n\
    \tparts.push(make(\"dl\", { class: \"facts\" }, ...facts.filter(it => it[1]).map(([name, value, cls = \"\"]) => make(\"div\", {}, make(\"dt\", {}, name), make(\"dd\", { class: cls }, value)))));\n\
    \tif (it.answers?.length) {\n\
    \t\tconst heads = [\"Policy\", \"said\", ...it.answers.some(said => said.saw) ? [\"because\"] : []];\n\
    \t\tconst rows = (answers, depth) => answers.flatMap(said => {\n\
    \t\t\tconst decided = !depth && said.policy === it.policy;\n\
    \t\t\treturn [{ cells: [\n\
    \t\t\t\t{ part: depth, text: said.policy, strong: decided, says: decided ? \"decided\" : \"\" },\n\
    \t\t\t\t{ text: ANSWERS[said.answer] || said.answer, kind: said.answer === \"sample\" ? \"kept\" : said.answer === \"not_asked\" ? \"muted\" : \"plain\", cls: \"\" }, { text: said.saw, cls: \"says\" },\n\
    \t\t\t].slice(0, heads.length) }, ...rows(said.parts || [], depth + 1)];\n\
    \t\t});\n\
    \t\tparts.push(table(make(\"div\", { class: \"scroll\" }), \"What each policy said\", heads, rows(it.answers, 0)));\n\
    \t}\n\
    \t$(\"found\").replaceChildren(...parts);\n\
    }\n\
    \n\
    async function lookUp(typed) {\n\
    \tconst id = typed.trim().toLowerCase().replaceAll(\"-\", \"\");\n\
    \t$(\"trace-id\").value = id;\n\
    \thistory.replaceState(null, \"\", \"#trace=\" + encodeURIComponent(id));\n\
    \t$(\"found\").replaceChildren();\n\
    \tpage.asked = page.toldOfIt = null;\n\
    \tif (!/^[0-9a-f]{32}$/.test(id)) return say(\"ask-fault\", \"A trace id has 32 digits from 0 to 9 and a to f.\");\n\
    \tpage.asked = id;\n\
    \tif (!await readTrace()) return;\n\
    \t$(\"found\").focus({ preventScroll: true });\n\
    \twindow.scrollTo(0, 0);\n\
    }\n\
    \n\
    // What is told of the trace that is asked for. Its shards answer a moment after they were asked first.\n\
    async function readTrace() {\n\
    \tconst id = page.asked;\n\
    \ttry {\n\
    \t\tconst text = await get(`trace/${id}.json`), it = JSON.parse(text);\n\
    \t\tif (page.asked !== id) return false;\n\
    \t\tif (text !== page.toldOfIt) showTrace(it);\n\
    \t\tpage.toldOfIt = text;\n\
    \t\tsay(\"ask-fault\", \"\");\n\
    \t\tif (!it.held) setTimeout(() => page.asked === id && readTrace(), AGAIN);\n\
    \t\treturn true;\n\
    \t} catch (fault) {\n\
    \t\tif (page.asked === id) say(\"ask-fault\", \"The collector doesn't answer.\");\n\
    \t\treturn false;\n\
    \t}\n\
    }\n\
    \n\
    async function readDecisions() {\n\
    \ttry {\n\
    \t\tconst { decisions } = JSON.parse(await get(\"decisions.json\"));\n\
    \t\tpage.decisions = decisions;\n\
    \t\tsay(\"last-told\", `${decisions.length ? `as of ${clock(Date.now())}, the newest first` : \"none yet\"}; told while somebody looks here, and for a minute more`);\n\
    \t} catch (fault) {\n\
    \t\tsay(\"last-told\", \"The collector doesn't answer; these are the last that it told.\");\n\
    \t}\n\
    \tshowDecisions();\n\
    }\n\
    \n\
    function showDecisions() {\n\
    \tconst which = $(\"which\").value, shown = (page.decisions || []).filter(it => !which || it.verdict === which);\n\
    \tconst verdicts = { kept: \"kept\", not_kept: \"not kept\" }, reasons = { too_big: \"its size\", none_agreed: \"none spoke for it\" };\n\
    \ttable($(\"decided\"), \"Last decided traces\", [\"Decided\", \"Trace\", \"Verdict\", \"Decided by\", \"Until\", \"spans\", \"waited\"], shown.map(it => ({ cells: [\n\
    \t\tclock(it.decided_ms), { id: it.trace_id, cls: \"\" }, { text: verdicts[it.verdict] || \"left undecided\", kind: it.verdict || \"plain\", cls: \"\" },\n\
    \t\t{ text: it.policy ?? reasons[it.because] ?? \"no room for it\", cls: it.policy ? \"\" : \"muted\" },\n\
    \t\t{ text: ENDS[it.ended_wait] || \"\", cls: \"muted\" }, count(it.spans), it.wait_ms === undefined ? \"\" : lasting(it.wait_ms),\n\
    \t] })));\n\
    }\n\
    \n\
    function showView() {\n\
    \tconst [name, id] = location.hash.slice(1).split(\"=\");\n\
    \tconst view = name === \"trace\" ? \"decisions\" : [\"decisions\", \"settings\"].includes(name) ? name : \"now\";\n\
    \tfor (const it of [\"now\", \"decisions\", \"settings\"]) {\n\
    \t\t$(it).hidden = it !== view;\n\
    \t\tconst link = document.querySelector(`nav a[href=\"#${it}\"]`);\n\
    \t\tif (it === view) link.setAttribute(\"aria-current\", \"page\");\n\
    \t\telse link.removeAttribute(\"aria-current\");\n\
    \t}\n\
    \twindow.scrollTo(0, 0);\n\
    \tif (view === \"decisions\" && FEEDS.has(\"decisions\")) {\n\
    \t\tif (!page.decisions) readDecisions();\n\
    \t\tif (id) lookUp(id);\n\
    \t}\n\
    \tif (latest() && page.settings) show();\n\
    }\n\
    \n\
    function listen() {\n\
    \tconst told = FEEDS.has(\"decisions\"), chart = $(\"chart\");\n\
    \tdocument.querySelector('nav a[href=\"#decisions\"]').hidden = !told;\n\
    \t$(\"no-decisions\").hidden = told;\n\
    \t$(\"ask\").hidden = $(\"last\").hidden = !told;\n\
    \t$(\"ask\").addEventListener(\"submit\", event => {\n\
    \t\tevent.preventDefault();\n\
    \t\tlookUp($(\"trace-id\").value);\n\
    \t});\n\
    \t$(\"again\").addEventListener(\"click\", readDecisions);\n\
    \t$(\"which\").addEventListener(\"change\", showDecisions);\n\
    \t$(\"over\").addEventListener(\"change\", () => latest() && show());\n\
    \t$(\"pause\").addEventListener(\"click\", () => {\n\
    \t\tpage.paused = !page.paused;\n\
    \t\t$(\"pause\").setAttribute(\"aria-pressed\", page.paused);\n\
    \t\tsay(\"pause\", page.paused ? \"Go on\" : \"Pause\");\n\
    \t});\n\
    \tchart.addEventListener(\"pointermove\", event => {\n\
    \t\tif (!page.scale) return;\n\
    \t\tconst { from, to, now } = page.scale;\n\
    \t\tpage.chosen = now - (to - event.offsetX) / (to - from) * WINDOW;\n\
    \t\tshowChart();\n\
    \t});\n\
    \tconst leave = () => { page.chosen = null; if (page.scale) showChart(); };\n\
    \tchart.addEventListener(\"pointerleave\", leave);\n\
    \tchart.addEventListener(\"blur\", leave);\n\
    \tchart.addEventListener(\"keydown\", event => {\n\
    \t\tconst step = { ArrowLeft: -1, ArrowRight: 1, Home: -1e6, End: 1e6 }[event.key];\n\
    \t\tif (event.key === \"Escape\") leave();\n\
    \t\tif (step) { event.preventDefault(); choose(step); }\n\
    \t});\n\
    \tchart.closest(\"section\").querySelector(\"details\").addEventListener(\"toggle\", () => page.scale && showChart());\n\
    \twindow.addEventListener(\"hashchange\", showView);\n\
    \tnew ResizeObserver(([{ contentRect }]) => {\n\
    \t\tif (contentRect.width) page.chartSize = contentRect;\n\
    \t\tif (page.scale) showChart();\n\
    \t}).observe(chart);\n\
    }\n\
    \n\
    listen();\n\
    showView();\n\
    keepRefreshing();\n\
    </script>\n\
    </body>\n\
    </html>\n";

/// The fields of a head that go with it, each with its line end.
pub(crate) const FIELDS: &str = "Cache-Control: no-store\r\n\
    X-Content-Type-Options: nosniff\r\n\
    Referrer-Policy: no-referrer\r\n\
    Content-Security-Policy: default-src 'none'; script-src 'sha256-xysp8geoF2F1gzBZkXqWG3J4ESaJujnI+9r2vS5M5oQ='; style-src 'sha256-jdDMd9EQgArls3EpZzZK/yxpYatm1eDHUsj6i1fjPc4='; connect-src 'self'; img-src data:; base-uri 'none'; form-action 'none'; frame-ancestors 'none'\r\n";
